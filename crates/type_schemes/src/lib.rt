//! Type schemes over a table of types: a type is closed over its variables, a scheme is read into the table with new
//! variables in place of its own.
#![tactic(auto)]

mod close;
mod flat;
mod heads;
mod instances;
mod kept;
mod key;
mod number;
mod places;
mod reach;
mod young;

pub use close::{generalise, generalise_since, left_since};
pub use instances::{add_variables, instantiate, variable};
pub use number::variables_in;
