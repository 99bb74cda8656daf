//! Definitions and laws alone: bare units whose names fit; what types, patterns and signatures become has names that fit,
//! if their own names do.
#![tactic(auto)]

mod laws;

pub use laws::new_names_fit;
