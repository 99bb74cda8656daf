//! Pairs of places through which a walk of two things at a time has gone.
#![tactic(auto)]

mod pairs;

pub use pairs::Pairs;
