//! Whole units: what their declarations define.
#![tactic(auto)]

mod given;
mod ready;
mod tops;
mod unit;

pub use unit::elab_unit;
