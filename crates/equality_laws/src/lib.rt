//! Laws alone: which of the types of a `datatype` admit equality is a question about types by their numbers, and
//! `equality_types` answers it.
#![tactic(auto)]

mod laws;

pub use laws::{arguments_say_what_they_need, greatest_choices_are_taken};
