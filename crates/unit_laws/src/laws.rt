//! The laws, so that crates above have them from a call.

ghost use Rattle.unit_laws.specs.Promises.{UnitsMakeOfGiven, UnitsKeepNames, UnitsKeepWellFormed};

/// What a unit defines is made of what it is given, and of type names that it numbers one after another.
#[tactic(auto, using(crate::proofs::Promised::units_make_of_given))]
pub fn units_make_of_what_they_are_given()
    ensures { UnitsMakeOfGiven }
{}

/// Where what it is given is well formed, with one arity and equality for each number of a type name, so is what a unit
/// defines; its names are those that were there, and those with the numbers from before to after.
#[tactic(auto, using(crate::proofs::Promised::units_keep_well_formed))]
pub fn units_keep_what_is_well_formed()
    ensures { UnitsKeepWellFormed }
{}

/// Where the names of what it is given and those that it binds are good ones, so are those of what a unit defines.
#[tactic(auto, using(crate::proofs::Named::units_keep_names))]
pub fn units_keep_good_names()
    ensures { UnitsKeepNames }
{}
