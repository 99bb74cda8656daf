//! The laws of matching, so that crates above have them from a call.

ghost use Rattle.module_semantics.specs.Promises.{MatchesByRules, MatchesOnce};

/// What matching gives, the rules allow.
#[tactic(auto, using(crate::proofs::Promised::by_rules))]
pub fn matching_is_by_the_rules()
    ensures { MatchesByRules }
{}

/// No more than one realisation matches.
#[tactic(auto, using(crate::proofs::Promised::once))]
pub fn matching_is_unique()
    ensures { MatchesOnce }
{}
