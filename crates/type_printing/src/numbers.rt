//! The numbers by which type names are printed.

use cm_base::{List, NoMemory};
use std::alloc::Global;

/// How type names that a unit made, and those that a signature or a functor binds, are printed: by the numbers that
/// they have, or by the order in which they are printed first.
#[derive(Drop)]
pub struct NameNumbers {
    is_by_order: bool,
    own: List<u64>,
    bound: List<u64>,
}

/// The place of a number in a list, at whose end it is put where it isn't there.
fn place_of(known: &mut List<u64>, number: u64) -> Result<u64, NoMemory> {
    match known.as_slice().iter().position(|one| *one == number) {
        Some(place) => Ok(place as u64),
        None => {
            let place = known.len();
            known.add(number)?;
            Ok(place as u64)
        }
    }
}

impl NameNumbers {
    /// Each by its number.
    pub fn as_made(alloc: Global) -> NameNumbers {
        NameNumbers {
            is_by_order: false,
            own: List::new(alloc),
            bound: List::new(alloc),
        }
    }

    /// Each by the order in which it is printed first, from 0.
    pub fn by_order(alloc: Global) -> NameNumbers {
        NameNumbers {
            is_by_order: true,
            own: List::new(alloc),
            bound: List::new(alloc),
        }
    }

    /// Begins what another signature or functor binds.
    pub fn begin_binder(&mut self, alloc: Global) {
        self.bound = List::new(alloc);
    }

    /// How the number of a type name that a unit made is printed.
    pub(crate) fn of_own(&mut self, number: u64) -> Result<u64, NoMemory> {
        if self.is_by_order {
            place_of(&mut self.own, number)
        } else {
            Ok(number)
        }
    }

    /// How the number of a type name that is bound is printed.
    pub(crate) fn of_bound(&mut self, number: u64) -> Result<u64, NoMemory> {
        if self.is_by_order {
            place_of(&mut self.bound, number)
        } else {
            Ok(number)
        }
    }
}
