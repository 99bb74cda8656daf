//! Laws alone: bound names of a functor that stand in its result stand in its parameter.
#![tactic(auto)]

mod laws;

pub use laws::functors_take_from_their_parameters;
