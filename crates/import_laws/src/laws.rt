//! The law, so that crates above have it from a call.

ghost use Rattle.import_laws.specs.Promises.{ImportsMayBeGiven};

/// What usable imports give a unit may be given to its elaboration.
#[tactic(auto, using(crate::proofs::Promised::imports_may_be_given))]
pub fn imports_may_be_given()
    ensures { ImportsMayBeGiven }
{}
