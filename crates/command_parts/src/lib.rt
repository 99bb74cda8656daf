//! Parts of a command: the build of a project that was loaded up to its report, its target, the script of a session, and
//! how commands end, with the lines that say so.
#![tactic(auto)]

mod ends;
mod limits;
mod lines;
mod linking;
mod printing;
mod script;
mod status;
mod targets;
mod work;

pub use ends::{edit_end, is_plain, print_refusal, print_status, run_usage};
pub use printing::print;
pub use script::find_script;
pub use status::Status;
pub use targets::find_target;
pub use work::{Report, WorkFault, build_project};
