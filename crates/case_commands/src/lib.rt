//! Commands as programs of cases run them: over any folder, output and compiler, with a box of tools of their own.
#![tactic(auto)]

use cm_base::{Compiler, Folder, NoMemory, Sink, Tool};
use cm_top::{Status, run_cm};
use member_tools::{BundledTool, Toolbox};
use std::alloc::Global;

/// The word for how a command ended.
pub fn status_word(status: Status) -> &'static [u8] {
    match status {
        Status::Ok => b"ok",
        Status::Diagnostic => b"diagnostic",
        Status::Usage => b"usage",
        Status::FolderFault => b"folder fault",
        Status::SinkFault => b"sink fault",
        Status::NoMemory => b"no memory",
        Status::ToolFault => b"tool fault",
    }
}

/// Runs a command with the tools of a box, of any type. (A call of `run_cm` at a type of tools that is given costs more
/// than the check of one declaration may.)
pub fn run_with<F: Folder, S: Sink, C: Compiler, T: Tool>(
    alloc: Global,
    words: &[String],
    folder: &mut F,
    out: &mut S,
    compiler: &mut C,
    tools: &mut Toolbox<T>,
) -> Status {
    run_cm(alloc, words, folder, out, compiler, tools)
}

/// Runs a command. Want of memory is handed on.
pub fn run<F: Folder, S: Sink, C: Compiler>(
    alloc: Global,
    words: &[String],
    folder: &mut F,
    out: &mut S,
    compiler: &mut C,
) -> Result<Status, NoMemory> {
    let mut tools: Toolbox<BundledTool> = Toolbox::new(alloc);
    let status = run_with(alloc, words, folder, out, compiler, &mut tools);
    tools.close();
    if status == Status::NoMemory {
        return Err(NoMemory);
    }
    Ok(status)
}
