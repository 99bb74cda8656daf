//! Signature expressions: the signature that each stands for.
#![tactic(auto)]

mod leaves;
mod phrase;
mod ready;
mod whole;

pub use whole::{elab_sig, elab_sig_in};
