//! A plan is an order of a project's units, and a build takes each source of it: laws alone. No code is here.
#![tactic(auto)]

mod laws;

pub use laws::{a_build_takes_each_source, plans_are_orders};
