//! The laws, so that crates above have them from a call.

ghost use Rattle.matching_laws.specs.Promises.{MatchesWhereOneDoes, MatchesExactlyWhereOneDoes};

/// Where a realisation matches, matching gives it.
#[tactic(auto, using(crate::proofs::Finding::where_one_does))]
pub fn matching_finds_what_matches()
    ensures { MatchesWhereOneDoes }
{}

/// Matching accepts exactly where a realisation matches.
#[tactic(auto, using(crate::proofs::Exactly::exactly_where_one_does))]
pub fn matching_accepts_exactly_what_matches()
    ensures { MatchesExactlyWhereOneDoes }
{}
