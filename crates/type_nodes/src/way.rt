//! Shorter ways from variables to what they come to.

ghost use Rattle.type_nodes.specs.Ways.{IsNextEra};

use semantic_objects::TyId;

/// What a variable comes to, and how often something had been undone when that was found.
#[derive(Clone, Copy, Debug, PartialEq, Eq)]
pub(crate) struct Way {
    pub(crate) to: TyId,
    pub(crate) era: usize,
}

/// How often something was undone, after one time more. In the last of these counts no way is used.
pub(crate) fn next_era(era: usize) -> usize
    ensures { IsNextEra era result }
{
    match era.checked_add(1) {
        Some(next) => next,
        None => era,
    }
}
