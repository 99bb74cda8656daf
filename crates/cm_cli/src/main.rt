//! The program `cm`: the compilation manager over the working directory and standard output.
#![tactic(auto)]

ghost use Rattle.std.specs.Prelude.{◌≡◌};
ghost use Rattle.cm_cli.specs.Exit.{exit_number};

use cm_base::{Compiler, Folder, NoMemory, Sink, Text, Tool};
use cm_host::{RealFolder, RealSink, WordsFault, program_words};
use cm_top::{Status, run_cm};
use member_tools::{BundledTool, Embed, Literate, Prelude, Toolbox};
use sml_compiler::SmlCompiler;
use std::alloc::Global;
use std::process::ExitCode;

/// The status after want of memory.
const NO_MEMORY: u8 = 5;

/// The exit status of a command that ended so.
fn exit_status(status: Status) -> u8
    ensures { result ≡ exit_number status }
{
    match status {
        Status::Ok => 0,
        Status::Diagnostic => 1,
        Status::Usage => 2,
        Status::FolderFault => 3,
        Status::SinkFault => 4,
        Status::NoMemory => NO_MEMORY,
        Status::ToolFault => 8,
    }
}

/// The words of the call. Words that aren't text mean nothing, as no words do.
fn words_of_call(rt: HostRuntime) -> Result<Vec<String>, NoMemory> {
    match program_words(&rt) {
        Ok(words) => Ok(words),
        Err(WordsFault::NotText) => Ok(Vec::new(rt.alloc())),
        Err(WordsFault::NoMemory) => Err(NoMemory),
    }
}

/// Puts a tool into a box. A refused tool is want of memory.
fn add(tools: &mut Toolbox<BundledTool>, tool: BundledTool) -> Result<(), NoMemory> {
    match tools.register(tool) {
        Ok(_old) => Ok(()),
        Err(_refused) => Err(NoMemory),
    }
}

/// The tools that come with the program: `embed` with the value name `text`, `literate`, and `prelude` with an empty head.
fn tools_of_program(alloc: Global) -> Result<Toolbox<BundledTool>, NoMemory> {
    let mut tools = Toolbox::new(alloc);
    let value = Text::from_bytes(alloc, b"text")?;
    let head = Text::from_bytes(alloc, b"")?;
    add(&mut tools, BundledTool::Embed(Embed::new(alloc, value)?))?;
    add(&mut tools, BundledTool::Literate(Literate::new(alloc)?))?;
    add(&mut tools, BundledTool::Prelude(Prelude::new(alloc, head)?))?;
    Ok(tools)
}

/// Runs a command over any folder, output, compiler and tools. (At types that are given the check of the call costs more
/// than that of one declaration may.)
fn run_with<F: Folder, S: Sink, C: Compiler, T: Tool>(
    alloc: Global,
    words: &[String],
    folder: &mut F,
    out: &mut S,
    compiler: &mut C,
    tools: &mut Toolbox<T>,
) -> Status {
    run_cm(alloc, words, folder, out, compiler, tools)
}

/// Runs the command that the program was called with over the working directory.
fn run(rt: HostRuntime) -> Result<u8, NoMemory> {
    let alloc = rt.alloc();
    let words = words_of_call(rt)?;
    let mut folder = RealFolder::new(rt, &Text::from_bytes(alloc, b".")?)?;
    let mut out = RealSink::new(rt)?;
    let mut compiler = SmlCompiler::new(alloc)?;
    let mut tools = tools_of_program(alloc)?;
    let status = run_with(
        alloc,
        words.as_slice(),
        &mut folder,
        &mut out,
        &mut compiler,
        &mut tools,
    );
    tools.close();
    Ok(exit_status(status))
}

fn main(rt: HostRuntime) -> ExitCode {
    ExitCode::from(run(rt).unwrap_or(NO_MEMORY))
}
