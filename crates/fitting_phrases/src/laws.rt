//! The law, so that crates above have it from a call.

ghost use Rattle.fitting_phrases.specs.Promises.{RunNamesFit};

/// What a run of expressions makes has names that fit, if each operand and operator of it has.
#[tactic(auto, using(crate::proofs::StrForms::run_names))]
pub fn run_names_fit()
    ensures { RunNamesFit }
{}
