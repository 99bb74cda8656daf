//! The law, so that crates above have it from a call.

ghost use Rattle.unit_derivations.specs.Promises.{UnitsHaveDerivations};

/// The rules give each unit that inference gives.
#[tactic(auto, using(crate::proofs::Promised::units_have_derivations))]
pub fn units_have_derivations()
    ensures { UnitsHaveDerivations }
{}
