//! Why a reading ends.

use cm_base::NoMemory;

/// Why a reading ends before the description is whole.
#[derive(Clone, Copy, Debug, PartialEq, Eq)]
pub(crate) enum Stop {
    /// No text of the grammar goes on with the next token.
    Refused,
    /// The directive before the next token has no condition that may stand there.
    BadCondition,
    NoMemory,
}

impl From<NoMemory> for Stop {
    ghost use Rattle.std.specs.Prelude.{◌≡◌};
    ghost use Rattle.cm_description.specs.declared.stop.Stop.TheVariants.{NoMemory as memory};

    ghost from_gives = { λ _ stop. stop ≡ memory };

    fn from(_error: NoMemory) -> Self {
        Stop::NoMemory
    }
}
