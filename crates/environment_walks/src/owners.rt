//! The owners of the names that a realisation replaces.

ghost use Rattle.std.specs.Prelude.{◌≡◌};
ghost use Rattle.environment_walks.specs.Owners.{no_owners, with_owner, owners_of, stands_outside};

use env_parts::Facts;
use semantic_objects::Owner;
use type_walks::Realisation;

/// Of which owners there are names among some: the basis, units, and binders.
#[derive(Clone, Copy)]
pub(crate) struct Owners {
    pub(crate) basis: bool,
    pub(crate) units: bool,
    pub(crate) bound: bool,
}

impl Owners {
    /// Of no owner.
    fn none() -> Owners
        ensures { result ≡ no_owners }
    {
        Owners {
            basis: false,
            units: false,
            bound: false,
        }
    }

    /// Of one owner more.
    fn with(self, owner: &Owner) -> Owners
        ensures { result ≡ with_owner self owner.now }
    {
        match owner {
            Owner::Basis => Owners {
                basis: true,
                ..self
            },
            Owner::Unit(_) => Owners {
                units: true,
                ..self
            },
            Owner::Bound => Owners {
                bound: true,
                ..self
            },
        }
    }

    /// The owners of the names that a realisation replaces.
    pub(crate) fn of(by: &Realisation) -> Owners
        ensures { result ≡ owners_of by.now.list }
    {
        let mut owners = Owners::none();
        for replace in by.list.as_slice() {
            owners = owners.with(&replace.name.owner);
        }
        owners
    }

    /// Whether facts tell that no name of these owners stands where they were taken.
    pub(crate) fn stand_outside(self, facts: Facts) -> bool
        ensures { result ≡ stands_outside self facts }
    {
        if self.basis || self.units && facts.has_unit_name {
            return false;
        }
        !(self.bound && facts.has_bound_name)
    }
}
