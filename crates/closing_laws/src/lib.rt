//! Laws of `val`: what it makes of its variables one after another, that their names differ, and that it may be closed
//! by age from phrase to phrase.
#![tactic(auto)]

mod laws;

pub use laws::{
    bindings_go_one_by_one, states_hold_their_scopes, values_end_by_variables, values_go_by_steps,
    variables_have_names_of_their_own,
};
