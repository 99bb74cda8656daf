//! The law, so that crates above have it from a call.

ghost use Rattle.fitting_names.specs.Promises.{NewNamesFit};

/// The names that derived forms make up have 1 to 255 bytes from 33 to 126.
#[tactic(auto, using(crate::proofs::SigForms::new_names))]
pub fn new_names_fit()
    ensures { NewNamesFit }
{}
