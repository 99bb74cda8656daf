//! With which lexemes expressions begin and go on, and how their nodes are made.
#![tactic(auto)]

pub mod chain;
pub mod exp_starts;
pub mod nodes;
pub mod runs;
