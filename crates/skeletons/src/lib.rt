//! The skeleton of a unit: the module names that its top level defines, and those that it uses and doesn't bind.
//! docs/language.md has the rules.
#![tactic(auto)]

mod first_places;
mod names;
mod noted;
mod places;
mod unit_skeleton;
mod walk;
mod walk_exp;
mod walk_pat;
mod walk_sig;
mod walk_ty;
mod walk_unit;

pub use unit_skeleton::skeleton;
