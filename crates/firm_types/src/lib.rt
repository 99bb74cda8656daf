//! Types in which nothing was put in for variables: schemes of types that aren't closed, and the check that a written
//! type is such a type.
#![tactic(auto)]

mod phrase;
mod scheme;

pub use phrase::check_firm;
pub use scheme::open_scheme;
