//! The law of names that are known, as a public function.

ghost use Rattle.imported_interfaces.specs.Promises.{KnownNamesFit};

/// Names fit to those that are known exactly where the conditions on them hold, and then they are known too.
#[tactic(auto, using(crate::proofs::Fits::known_names_fit))]
pub fn known_names_fit()
    ensures { KnownNamesFit }
{}
