//! Laws alone: how many levels a tree nests that is read, which is what the limits of the grammar count.
#![tactic(auto)]

mod laws;

pub use laws::{
    expressions_have_their_levels, patterns_have_their_levels, types_have_their_levels,
    units_have_their_levels, units_nest_at_most_128,
};
