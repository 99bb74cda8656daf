//! The law that a plain build knows no store: what is planned in a folder and what is left of it are the same over the
//! folder's project part. No code is here.
#![tactic(auto)]

mod laws;

pub use laws::a_build_knows_no_store;
