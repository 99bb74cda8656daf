//! Rows as type structures.

ghost use Rattle.std.specs.Prelude.{◌≡◌, ◌++◌, [], IfOk, map};
ghost use Rattle.initial_basis.specs.Basis.{type_of_row, unit_type};

use crate::entries::cons_of;
use crate::phrases::{applied, unit_tree};
use crate::row::Row;
use crate::type_names::{NamedName, arity_of, last_word};
use cm_base::{List, NoMemory, Text};
use semantic_objects::{TypeFn, TypeStr};
use sml_modules::NamedType;
use std::alloc::Global;

/// The type structure of a row: its type name over its own variables, with its constructors.
fn type_of_row(
    alloc: Global,
    names: &[NamedName],
    cons: &List<Row>,
    row: &Row,
) -> Result<NamedType, NoMemory>
    ensures { IfOk result (λ entry. entry ≡ type_of_row names.now cons.now row.now) }
{
    let name = last_word(&row.names)?;
    let function = TypeFn {
        arity: arity_of(&row.names)?,
        body: applied(alloc, names, row.names.as_slice())?,
    };
    let cons = cons_of(alloc, names, cons, &name)?;
    Ok(NamedType {
        name,
        entry: TypeStr { function, cons },
    })
}

/// The type structures of rows.
pub(crate) fn types_of(
    alloc: Global,
    names: &[NamedName],
    cons: &List<Row>,
    rows: &List<Row>,
) -> Result<List<NamedType>, NoMemory>
    ensures { IfOk result (λ types. types ≡ map (type_of_row names.now cons.now) rows.now) }
{
    let mut types = List::new(alloc);
    for row in rows.as_slice() {
        types.add(type_of_row(alloc, names, cons, row)?)?;
    }
    Ok(types)
}

/// `unit`, which abbreviates the empty record.
pub(crate) fn unit_type(alloc: Global) -> Result<NamedType, NoMemory>
    ensures { IfOk result (λ entry. entry ≡ unit_type) }
{
    let function = TypeFn {
        arity: 0,
        body: unit_tree(alloc)?,
    };
    Ok(NamedType {
        name: Text::from_bytes(alloc, b"unit")?,
        entry: TypeStr {
            function,
            cons: List::new(alloc),
        },
    })
}
