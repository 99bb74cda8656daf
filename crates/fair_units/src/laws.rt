//! The law, so that crates above have it from a call.

ghost use Rattle.fair_units.specs.Promises.{UnitsAreFair};

/// What a unit defines is a fair top, where all that is counted of it is less than four bytes can say.
#[tactic(auto, using(crate::proofs::Units::units_are_fair))]
pub fn units_are_fair()
    ensures { UnitsAreFair }
{}
