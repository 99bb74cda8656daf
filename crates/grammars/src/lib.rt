//! Grammars as data: what a phrase and a front are, a reader, and their laws, for every grammar. `toy` is one grammar
//! with its recursive reader in code.
#![tactic(auto)]

mod laws;
pub mod toy;

pub use laws::{
    Described, Nested, Repeated, Widened, grammars_are_lawful, nesting_keeps_its_limit,
    rounds_are_read_in_turn, wider_limits_keep_refusals,
};
