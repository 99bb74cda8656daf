//! The law, so that crates above have it from a call.

ghost use Rattle.core_soundness.specs.Promises.{AcceptedFollows};

/// Where inference gives something, the rules give it too. The Definition of Standard ML (Revised), rules 1 to 31.
#[tactic(auto, using(crate::proofs::Promised::accepted_follows))]
pub fn accepted_phrases_follow_the_rules()
    ensures { AcceptedFollows }
{}
