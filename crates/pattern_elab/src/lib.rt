//! Patterns: the type of each and the variables that it binds, in a table of types. And the steps that expressions
//! share with them.
#![tactic(auto)]

mod constant;
mod constructor;
mod name;
mod own;
mod pat;
mod plain;
mod steps;
mod typed;
mod value;
mod variable;

pub use constant::{char_type, exn_type, int_type, string_type};
pub use own::{CoreScope, OwnVariable};
pub use pat::elab_pat;
pub use steps::{refuse, sized, unify_at};
pub use typed::written_type;
pub use value::{instance, known_value, stands_for_con};
pub use variable::{bind_variable, is_reserved};
