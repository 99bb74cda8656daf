//! Laws alone: what the calls of elaboration accept is what the rules of the core give.
#![tactic(auto)]

mod laws;

pub use laws::accepted_phrases_follow_the_rules;
