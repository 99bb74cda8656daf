//! What stands between loading and building: the plan of a project, or what is refused of it.
#![tactic(auto)]

mod graph;
pub mod laws;
mod plan;
mod planning;

pub use plan::Plan;
pub use planning::{make_plan, plan_with};
pub use skeleton_asking::PlanFault;
