//! Expressions and declarations of the core: their types, and what they bind.
#![tactic(auto)]

mod binds;
mod declared;
mod entering;
mod exp;
mod patterns;
mod ready;
mod rec_exps;
mod scoped;
mod val;
mod whole;

pub use scoped::elab_dec_in;
pub use whole::{elab_dec, elab_exp};
