//! Signatures and specifications of Standard ML, read from lexemes.
#![tactic(auto)]

mod descs;
mod includes;
pub mod joined;
pub mod names;
pub mod rounds;
pub mod sig_exps;
mod where_types;
pub mod wheres;
