//! Laws of inference that no definition needs: what the types and environments that it makes are made of, and what it
//! hangs on.
#![tactic(auto)]

mod laws;

pub use laws::{
    inference_binds_new_or_free_variables, inference_hangs_on_what_is_seen,
    inference_keeps_what_is_well_formed, inference_makes_of_what_it_is_given,
};
