//! The law, so that crates above have it from a call.

ghost use Rattle.fitting_forms.specs.Promises.{RunsFit};

/// What a run of patterns or expressions makes has constants that fit, if each operand of it has.
#[tactic(auto, using(crate::proofs::Runs::runs))]
pub fn runs_fit()
    ensures { RunsFit }
{}
