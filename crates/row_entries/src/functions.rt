//! Type functions.

ghost use Rattle.std.specs.Prelude.{IfOk};
ghost use Rattle.semantic_objects.specs.Nodes.{AreNodes};
ghost use Rattle.row_entries.specs.Told.{FindsFunction, TellsFunction};

use crate::variables::are_among;
use cm_base::NoMemory;
use node_bytes::Row;
use row_forms::{CountedForm, counted_form};
use row_types::TypeRows;
use semantic_objects::TypeFn;
use shared_types::type_at;
use std::alloc::Global;

/// The type function of an arity and the type at a place, if its indexes are below the arity.
fn function_over(
    alloc: Global,
    types: &TypeRows,
    form: CountedForm,
) -> Result<Option<TypeFn>, NoMemory>
    requires { AreNodes types.now.nodes }
    ensures { IfOk result (FindsFunction types.now form) }
{
    if !types.is_type(form.place)? {
        return Ok(None);
    }
    let body = type_at(alloc, types.nodes.as_slice(), form.place)?;
    if !are_among(alloc, &body, form.count)? {
        return Ok(None);
    }
    Ok(Some(TypeFn {
        arity: form.count,
        body,
    }))
}

/// The type function that a row is.
pub(crate) fn function_row(
    alloc: Global,
    types: &TypeRows,
    row: &Row,
) -> Result<Option<TypeFn>, NoMemory>
    requires { AreNodes types.now.nodes }
    ensures { IfOk result (TellsFunction types.now row.now) }
{
    match row.tag {
        5 => match counted_form(row.items.as_slice()) {
            Some(form) => function_over(alloc, types, form),
            None => Ok(None),
        },
        _ => Ok(None),
    }
}
