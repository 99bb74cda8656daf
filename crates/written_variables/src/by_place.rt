//! Names in the order of their places.

ghost use Rattle.std.specs.Prelude.{◌≡◌, OnOk};
ghost use Rattle.std.specs.Ordering.{is_lt};
ghost use Rattle.static_semantics.specs.WrittenVariables.{by_place, stands_before};

use cm_base::NoMemory;
use sml_trees::Name;
use std::cmp::Ordering;

/// How the places of two names compare: by lines, and in one line by columns.
fn compare_places(a: &Name, b: &Name) -> Ordering
    ensures { is_lt result ≡ stands_before a.now b.now }
{
    a.line.cmp(&b.line).then(a.col.cmp(&b.col))
}

/// Sorts names by their places. Those at one place stay as they are.
pub(crate) fn sort_by_place(names: &mut Vec<Name>) -> Result<(), NoMemory>
    ensures { OnOk result (names.new.items ≡ by_place names.old.items) }
{
    names.sort_by(|a, b| compare_places(a, b))?;
    Ok(())
}
