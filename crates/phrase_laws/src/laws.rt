//! The laws, so that crates above have them from a call.

ghost use Rattle.phrase_laws.specs.Promises.{TypesHaveDerivations, PatternsHaveDerivations};

/// The rules give each type that inference gives, whatever is put in for variables.
#[tactic(auto, using(crate::proofs::Promised::types_have_derivations))]
pub fn types_have_derivations()
    ensures { TypesHaveDerivations }
{}

/// The rules give the type and the variables of each pattern that inference takes.
#[tactic(auto, using(crate::proofs::Promised::patterns_have_derivations))]
pub fn patterns_have_derivations()
    ensures { PatternsHaveDerivations }
{}
