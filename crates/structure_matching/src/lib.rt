//! Environments that match signatures. The Definition of Standard ML (Revised), sections 5.2, 5.5 and 5.6.
#![tactic(auto)]

mod canonical;
mod comparing;
mod constructors;
mod enriching;
mod matching;
mod parts;
mod realisation_search;
mod realising;
mod refusals;
mod search;
mod values;

pub use matching::{Matched, match_signature, matches};
pub use realisation_search::find_realisation;
