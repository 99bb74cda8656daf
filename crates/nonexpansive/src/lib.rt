//! Which expressions are nonexpansive: only their bindings are closed over type variables (The Definition of Standard
//! ML, section 4.7).
#![tactic(auto)]

mod constructs;
mod expression;

pub use expression::is_nonexpansive;
