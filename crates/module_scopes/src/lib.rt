//! What is in scope at the top level of a unit while its declarations are elaborated, and what they define: structures,
//! signatures and functors by name.
#![tactic(auto)]

mod adding;
mod binding;
mod defined;
mod labels;
mod laws;
mod looking;
mod top;
mod whole;

pub use binding::{bind_structure, enter_parameter, enter_structures, made_of_structures};
pub use defined::Defined;
pub use labels::{check_functor, check_signature, check_structure};
pub use laws::tops_stay;
pub use looking::{named_functor, named_structure};
pub use top::TopScope;
pub use whole::make_defined;
