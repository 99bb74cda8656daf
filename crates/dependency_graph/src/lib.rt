//! The order of units: by rank and then by name, or the cycle that stands in its way.
#![tactic(auto)]

mod components;
mod cycle;
mod distances;
mod laws;
mod ranked;
mod ranks;
mod refusal;
mod unit_order;

pub use laws::orders_and_cycles_are_values;
pub use refusal::cycle_diag;
pub use unit_order::{OrderFault, UnitOrder, at, order, rank};
