//! Laws of signatures, structures and units: what they mean doesn't hang on the numbers of variables, nor on what a
//! table holds of earlier ones.
#![tactic(auto)]

mod laws;

pub use laws::{
    matching_moves_with_variables, signatures_move_with_variables, units_begin_anywhere,
    units_move_with_variables,
};
