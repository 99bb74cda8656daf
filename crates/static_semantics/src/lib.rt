//! The static semantics of the core language: inference as a definition with its first diagnostic, the rules as
//! relations, and laws of inference.
#![tactic(auto)]

mod laws;

pub use laws::{
    datatypes_maximise_equality, inference_touches_its_scope_alone, values_are_closed_by_age,
};
