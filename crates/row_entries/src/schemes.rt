//! Schemes.

ghost use Rattle.std.specs.Prelude.{IfOk};
ghost use Rattle.semantic_objects.specs.Nodes.{AreNodes};
ghost use Rattle.row_entries.specs.Told.{FindsScheme, TellsScheme};

use crate::variables::are_first;
use cm_base::NoMemory;
use node_bytes::Row;
use row_forms::{SchemeForm, scheme_form};
use row_types::TypeRows;
use semantic_objects::Scheme;
use shared_types::type_at;
use std::alloc::Global;

/// The scheme of marks and the type at a place, if its variables are numbered by first occurrence and each mark is that
/// of one.
fn scheme_over(
    alloc: Global,
    types: &TypeRows,
    form: SchemeForm,
) -> Result<Option<Scheme>, NoMemory>
    requires { AreNodes types.now.nodes }
    ensures { IfOk result (FindsScheme types.now form) }
{
    let SchemeForm { marks, place } = form;
    if !types.is_type(place)? {
        return Ok(None);
    }
    let body = type_at(alloc, types.nodes.as_slice(), place)?;
    if !are_first(alloc, &body, marks.len())? {
        return Ok(None);
    }
    Ok(Some(Scheme::make(marks, body)?))
}

/// The scheme that a row is.
pub(crate) fn scheme_row(
    alloc: Global,
    types: &TypeRows,
    row: &Row,
) -> Result<Option<Scheme>, NoMemory>
    requires { AreNodes types.now.nodes }
    ensures { IfOk result (TellsScheme types.now row.now) }
{
    match row.tag {
        6 => match scheme_form(alloc, row.items.as_slice())? {
            Some(form) => scheme_over(alloc, types, form),
            None => Ok(None),
        },
        _ => Ok(None),
    }
}
