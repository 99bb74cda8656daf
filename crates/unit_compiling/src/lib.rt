//! Units are compiled: a source becomes its interface and its code, or its first diagnostic.
#![tactic(auto)]

mod compiler;
mod compiling;
mod laws;
mod source;
mod waiting;

pub use compiler::UnitCompiler;
pub use laws::compiled_units_are_small;
pub use source::bare_of_source;
