//! The law, so that crates above have it from a call.

ghost use Rattle.reopening_laws.specs.Promises.{ClosedVariablesReopen};

/// Types that a `val` closed are open inside, where a choice puts other variables for the closed ones.
#[tactic(auto, using(crate::proofs::Promised::closed_variables_reopen))]
pub fn closed_variables_reopen()
    ensures { ClosedVariablesReopen }
{}
