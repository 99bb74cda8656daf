//! The parts of `val` in which no expression is inferred: the written type variables that it binds, the patterns of `rec`
//! bindings, and its end, at which the types of its variables are closed.
#![tactic(auto)]

mod binding;
mod closing;
mod group;
mod laws;
mod left;
mod made;
mod own;
mod rec_pats;
mod recursive;
mod schemes;
mod sizes;
mod val;
mod values;

pub use binding::add_binding;
pub use group::{BoundGroup, BoundVariable};
pub use laws::tables_hold_their_scopes;
pub use made::enter_made;
pub use own::own_variables;
pub use rec_pats::{elab_rec_pats, variables_since};
pub use val::close_val;
