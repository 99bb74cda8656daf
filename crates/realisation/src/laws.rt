//! The laws of realisation, so that crates above have them from a call.

ghost use Rattle.realisation.specs.Promises.{RealisesTypes};

/// What is put for names that don't occur changes nothing, two realisations are one, and instances are kept.
#[tactic(auto, using(crate::proofs::Promised::realises_types))]
pub fn realisation_keeps_instances()
    ensures { RealisesTypes }
{}
