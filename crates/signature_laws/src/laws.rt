//! The laws, so that crates above have them from a call.

ghost use Rattle.signature_laws.specs.Promises.{SignaturesStand, UnitsStand, StandingNamesOccur};

/// Each name that a signature binds is that of a type in it, and the names are numbered from 0.
#[tactic(auto, using(crate::proofs::Signatures::signatures_stand))]
pub fn signatures_stand()
    ensures { SignaturesStand }
{}

/// So it is of the signatures that a unit defines, and of the parameters of its functors and funsigs.
#[tactic(auto, using(crate::proofs::Units::units_stand))]
pub fn units_stand()
    ensures { UnitsStand }
{}

/// A name that is that of a type stands alone there, and occurs in the walk of type names.
#[tactic(auto, using(crate::proofs::Occurring::standing_names_occur))]
pub fn standing_names_occur()
    ensures { StandingNamesOccur }
{}
