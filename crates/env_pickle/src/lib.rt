//! Interfaces are written: the unit that stands in a graph, or in a table of nodes, becomes its interface. The call that
//! reads them back has its name here too.
#![tactic(auto)]

mod pickling;
mod writing;

pub use interface_reading::RestoreFault;
pub use interface_restoring::restore;
pub use pickling::pickle;
pub use writing::{INTERFACE_LIMIT, write_interface, write_top};
