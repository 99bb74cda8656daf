//! Laws alone: states grow while signatures and structures are inferred, and what is made is of the state afterwards.
#![tactic(auto)]

mod laws;

pub use laws::modules_grow;
