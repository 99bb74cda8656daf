//! Laws alone: the top that bytes are the interface of, as a function of the bytes.
#![tactic(auto)]

mod laws;

pub use laws::interfaces_have_tops;
