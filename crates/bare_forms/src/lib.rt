//! What each form that is written stands for: the definitions of the derived forms of Standard ML, with the equations of
//! each form, runs of operands and infix operators, and what all expansion holds its trees in.
#![tactic(auto)]

pub mod held;
pub mod joined;
pub mod name;
pub mod placed;
pub mod run;
mod run_law;

pub use run_law::run_has_one_tree;
