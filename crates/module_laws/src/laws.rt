//! The law, so that crates above have it from a call.

ghost use Rattle.module_laws.specs.Promises.{ModulesHaveDerivations};

/// The rules give each structure that inference gives.
#[tactic(auto, using(crate::proofs::Promised::modules_have_derivations))]
pub fn modules_have_derivations()
    ensures { ModulesHaveDerivations }
{}
