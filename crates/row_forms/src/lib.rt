//! What the whole rows of an interface are made of, read to their end.
#![tactic(auto)]

mod entries;
mod modules;

pub use entries::{CountedForm, SchemeForm, TypeForm, counted_form, scheme_form, type_form};
pub use modules::{EnvForm, FunctorForm, UnitForm, env_form, functor_form, unit_form};
