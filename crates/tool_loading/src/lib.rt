//! What the loading of projects is whose members may be of tools' classes: definitions and laws alone. No code is here.
#![tactic(auto)]

mod laws;

pub use laws::{
    loading_goes_to_any_depth, loading_knows_no_store, loading_over_true_records,
    loading_without_tools,
};
