//! Expressions and declarations of the core of Standard ML, read from lexemes as they are written.
#![tactic(auto)]

mod atexp;
mod binds;
pub mod decs;
pub mod exp;
mod exp_constraints;
mod fun_decs;
mod rule_pats;
mod run;
mod val_decs;
