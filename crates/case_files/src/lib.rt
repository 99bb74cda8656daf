//! Tests that are text: files of cases, each a title with named sections of exact bytes, and what is printed of a
//! case whose answer differs. docs/CASES.md has the form.
#![tactic(auto)]

mod bytes;
mod case;
mod fault;
mod folder;
mod inputs;
mod printing;
mod reading;
mod report;
mod running;
mod words;

pub use bytes::push_all;
pub use case::{Case, CaseFile, Piece, Section};
pub use fault::{CaseFault, Wrong};
pub use folder::{case_names, read_cases};
pub use inputs::{Input, Row, inputs_of, rows_of};
pub use printing::{Part, push_lines, push_parts};
pub use reading::cases_of;
pub use report::Report;
pub use running::{Kinds, run_cases};
pub use words::number_of;
