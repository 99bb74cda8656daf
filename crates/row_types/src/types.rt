//! Rows are told one after the other.

ghost use Rattle.std.specs.Prelude.{◌≡◌, IfOk};
ghost use Rattle.row_types.specs.Told.{Makes, TellsRow};

use crate::rows::TypeRows;
use crate::symbols::{arrow_of, named_of, record_of, variable_of};
use cm_base::{NoMemory, Text};
use node_bytes::Row;
use semantic_objects::TypeNode;
use std::alloc::Global;

/// The type that a row is, or none where it is no type.
#[tactic(auto, using(crate::proofs::Refused::no_tag))]
fn type_of(
    alloc: Global,
    home: &Text,
    rows: &TypeRows,
    row: &Row,
) -> Result<Option<TypeNode>, NoMemory>
    ensures { IfOk result (Makes home.now row.now.tag row.now.items rows.now) }
{
    let items = row.items.as_slice();
    match row.tag {
        1 => Ok(variable_of(items)),
        2 => record_of(alloc, rows, items),
        3 => arrow_of(alloc, rows, items),
        4 => named_of(alloc, home, rows, items),
        _ => Ok(None),
    }
}

/// Tells whether the next row is a type in the interface of `home`, and which one. After want of memory the rows are of
/// no use.
#[tactic(auto, using(crate::proofs::Added::type_added, crate::proofs::Added::none_added))]
pub fn note_row(
    alloc: Global,
    home: &Text,
    rows: &mut TypeRows,
    row: &Row,
) -> Result<bool, NoMemory>
    ensures { IfOk result (TellsRow home.now rows.old row.now rows.new) }
{
    match type_of(alloc, home, rows, row)? {
        Some(node) => {
            rows.nodes.add(node)?;
            rows.told.add(true)?;
            Ok(true)
        }
        None => {
            rows.nodes.add(TypeNode::Bound(0))?;
            rows.told.add(false)?;
            Ok(false)
        }
    }
}
