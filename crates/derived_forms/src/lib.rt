//! Units as they are written become bare ones: the derived forms of Standard ML go.
#![tactic(auto)]

mod bare_unit;
mod exp;
mod part;
mod str_exp;
mod unit;

pub use bare_unit::to_bare;
