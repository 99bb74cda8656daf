//! The words of the house: texts, lists and boxes that contracts see as what they hold, the records
//! that crates hand each other, and the four traits by which the program meets the outside.
#![tactic(auto)]

mod boxed;
mod byte_class;
mod compiler;
mod diag;
mod fault;
mod file;
mod folder;
pub mod laws;
mod list;
mod mem_folder;
mod mem_sink;
mod plan;
mod record;
mod sink;
mod sure_folder;
mod sure_sink;
mod text;
mod tool;

pub use boxed::Boxed;
pub use byte_class::{is_digit, is_identifier_byte, is_letter};
pub use compiler::Compiler;
pub use diag::{Diag, Place};
pub use fault::{CompileFault, Fault, FolderFault, NoMemory, SinkFault, ToolFault};
pub use file::{put_file, read_front};
pub use folder::Folder;
pub use list::List;
pub use mem_folder::MemFolder;
pub use mem_sink::MemSink;
pub use plan::{CallCounts, CallKind, FailAt, Left};
pub use record::{
    Built, BuiltUnit, CompileInput, Compiled, Def, Given, How, Import, ModName, Namespace, Need,
    Options, Pid, PlannedUnit, Skeleton, Spot, WantedName,
};
pub use sink::Sink;
pub use sure_folder::SureFolder;
pub use sure_sink::SureSink;
pub use text::Text;
pub use tool::Tool;
