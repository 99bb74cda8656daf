//! Laws alone: what a unit defines is made of what it is given and of type names that it numbers one after another.
#![tactic(auto)]

mod laws;

pub use laws::{
    units_keep_good_names, units_keep_what_is_well_formed, units_make_of_what_they_are_given,
};
