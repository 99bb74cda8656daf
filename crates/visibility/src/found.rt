//! What is found of the units behind a name.

ghost use Rattle.std.specs.Prelude.{◌≡◌};

/// The units behind a name: none, one, or several.
#[derive(Clone, Copy, Debug, PartialEq, Eq)]
pub enum Found {
    Missing,
    One(u32),
    Several,
}

impl Found {
    ghost use Rattle.visibility.specs.Providers.{or_else};
    ghost use Rattle.visibility.specs.Tables.{with_unit};

    /// With one more unit, which may be the one that is found already.
    pub(crate) fn with_unit(self, unit: u32) -> Found
        ensures { result ≡ with_unit self unit }
    {
        match self {
            Found::Missing => Found::One(unit),
            Found::One(found) => {
                if found == unit {
                    Found::One(found)
                } else {
                    Found::Several
                }
            }
            Found::Several => Found::Several,
        }
    }

    /// What is found, or else what is found elsewhere.
    pub(crate) fn or_else(self, other: Found) -> Found
        ensures { result ≡ or_else self other }
    {
        match self {
            Found::Missing => other,
            Found::One(_) | Found::Several => self,
        }
    }
}
