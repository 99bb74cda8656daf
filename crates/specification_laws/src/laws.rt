//! The law, so that crates above have it from a call.

ghost use Rattle.specification_laws.specs.Promises.{SignaturesHaveDerivations};

/// The rules give each signature that inference gives.
#[tactic(auto, using(crate::proofs::Promised::signatures_have_derivations))]
pub fn signatures_have_derivations()
    ensures { SignaturesHaveDerivations }
{}
