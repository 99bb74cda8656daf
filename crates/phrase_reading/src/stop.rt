//! Why a reading ends before its phrase is whole.

use cm_base::NoMemory;

/// Why a reading ends before its phrase is whole.
#[derive(Clone, Copy, Debug, PartialEq, Eq)]
pub enum Stop {
    /// No phrase goes on with the next lexeme.
    Refused,
    /// The last lexeme that was taken opens a level too many.
    TooDeep,
    NoMemory,
}

impl From<NoMemory> for Stop {
    ghost use Rattle.std.specs.Prelude.{◌≡◌};
    ghost use Rattle.phrase_reading.specs.declared.stop.Stop.TheVariants.{NoMemory as memory};

    ghost from_gives = { λ _ stop. stop ≡ memory };

    fn from(_error: NoMemory) -> Self {
        Stop::NoMemory
    }
}
