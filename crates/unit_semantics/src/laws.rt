//! The laws of units, so that crates above have them from a call.

ghost use Rattle.unit_semantics.specs.Promises.{MeansTheSame, UnitsDefineStructures, UnitsAreClosed};

/// A declaration of the core means in a structure what it means in the core.
#[tactic(auto, using(crate::proofs::Promised::means_the_same))]
pub fn core_means_the_same()
    ensures { MeansTheSame }
{}

/// A unit defines structures in which no type variable stands, and functors in whose results none stands.
#[tactic(auto, using(crate::proofs::Promised::define_structures))]
pub fn units_define_structures()
    ensures { UnitsDefineStructures }
{}

/// Where no type variable stands in the basis and in what is given, none stands in what a unit defines.
#[tactic(auto, using(crate::proofs::Promised::are_closed))]
pub fn units_are_closed()
    ensures { UnitsAreClosed }
{}
