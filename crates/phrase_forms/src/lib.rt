//! Types, patterns, signatures and what is bound or specified without expressions become bare.
#![tactic(auto)]

pub mod bare;
mod bind;
pub mod pat;
pub mod sig;
pub mod ty;
