//! Variables of the unit itself.

use core_scopes::Scope;

/// A variable that a pattern of the unit binds and whose type isn't closed. Its type is a variable of the table of
/// types, by its number there.
#[derive(Clone, Copy, Debug, PartialEq, Eq)]
pub struct OwnVariable {
    pub number: usize,
}

/// What is in scope while a phrase of the core is elaborated. Closed values of the unit stand in it as entries.
pub type CoreScope = Scope<OwnVariable>;
