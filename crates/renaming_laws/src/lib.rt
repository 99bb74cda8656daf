//! Laws of inference: it doesn't hang on the numbers of variables, nor on what a table holds of earlier ones.
#![tactic(auto)]

mod laws;

pub use laws::{
    generality_moves_with_its_variables, inference_begins_anywhere,
    inference_moves_with_its_variables,
};
