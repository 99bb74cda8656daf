//! Unification and type schemes: definitions with their laws, which symbols admit equality, and a small unifier over
//! types as one writes them, by which the definitions are tried on examples.
#![tactic(auto)]

mod equality;
mod laws;
mod marking;
mod plain;
mod unifier;

pub use equality::{Equality, symbol_equality};
pub use laws::{
    closing_finds_what_is_not_kept, schemes_are_compared, states_hold_what_was_made,
    unification_is_most_general, unification_touches_its_types_alone,
};
pub use plain::{PlainType, VariableKind};
pub use unifier::{Unifier, UnifyFault, unify};
