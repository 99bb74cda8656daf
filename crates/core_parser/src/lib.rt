//! The core of Standard ML at a cursor: the public calls that read a declaration, an expression, a pattern or a type.
#![tactic(auto)]

mod cursor;
mod failure;
mod parsing;

pub use cursor::{Cursor, Scope};
pub use failure::Failure;
pub use parsing::{parse_dec, parse_exp, parse_pat, parse_ty};
