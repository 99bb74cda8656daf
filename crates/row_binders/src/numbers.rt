//! Whether type names are numbered.

ghost use Rattle.std.specs.Prelude.{◌↔◌, IsTrue};
ghost use Rattle.interface_format.specs.Rules.{AreNumbered};
ghost use Rattle.row_binders.specs.Binders.{AreCounted};

use cm_base::List;
use semantic_objects::TyName;

/// Whether names have the numbers from a first one on, in their order.
pub fn are_numbered(names: &[TyName], first: u32) -> bool
    ensures { IsTrue result ↔ AreNumbered first names.now }
{
    let mut next = u64::from(first);
    for name in names {
        if name.number != next {
            return false;
        }
        next += 1;
    }
    true
}

/// Whether they are so many, besides.
pub(crate) fn are_counted(names: &List<TyName>, first: u32, count: u32) -> bool
    ensures { IsTrue result ↔ AreCounted first count names.now }
{
    names.len() == count as usize && are_numbered(names.as_slice(), first)
}
