//! Which of some new types admit equality: as far as they can together, found in as many steps as there are types and
//! places where one stands in another.
#![tactic(auto)]

mod choice;

pub use choice::greatest_choice;
