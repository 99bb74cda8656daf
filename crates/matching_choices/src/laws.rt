//! The law, so that crates above have it from a call.

ghost use Rattle.matching_choices.specs.Promises.{MatchingStays};

/// An environment that matches a signature does so by the same realisation under each choice that solves the state.
#[tactic(auto, using(crate::proofs::Environments::matching_stays))]
pub fn matching_stays()
    ensures { MatchingStays }
{}
