//! The law, so that crates above have it from a call.

ghost use Rattle.module_growth.specs.Promises.{ModulesGrow};

/// States grow while signatures and structures are inferred.
#[tactic(auto, using(crate::proofs::Promised::modules_grow))]
pub fn modules_grow()
    ensures { ModulesGrow }
{}
