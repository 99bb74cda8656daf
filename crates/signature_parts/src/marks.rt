//! Marks of signatures that are made.

ghost use Rattle.std.specs.Prelude.{◌≡◌};
ghost use Rattle.signature_parts.specs.Steps.{mark_of};

use signature_specs::Specified;

/// How much was specified when the mark was made.
#[derive(Clone, Copy, Debug, PartialEq, Eq)]
pub struct SpecifiedMark {
    pub(crate) structures: usize,
    pub(crate) types: usize,
    pub(crate) values: usize,
}

/// Remembers how much is specified. It takes no memory.
pub fn mark(made: &Specified) -> SpecifiedMark
    ensures { result ≡ mark_of made.now }
{
    SpecifiedMark {
        structures: made.structures.len(),
        types: made.types.len(),
        values: made.values.len(),
    }
}
