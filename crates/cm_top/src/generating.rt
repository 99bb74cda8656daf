//! Generated projects: they are made from the number of their units, and built.

ghost use Rattle.std.specs.Prelude.{◌≡◌, ◌≢◌, ◌≤◌, None};
ghost use Rattle.std.specs.List.{AllByRecursion};
ghost use Rattle.cm_base.specs.Causes.{HasCause};
ghost use Rattle.cm_base.specs.Files.{Told};
ghost use Rattle.command_words.specs.Words.{command_of};
ghost use Rattle.group_loader.specs.Loading.{states_by};
ghost use Rattle.command_parts.specs.Generating.{IsPart, files_of};
ghost use Rattle.command_parts.specs.Headline.{KeepsOutside};
ghost use Rattle.cm_top.specs.Generating.{generating, make, of_part};
ghost use Rattle.cm_top.specs.Meaning.{of_words};
ghost use Rattle.cm_top.specs.Performing.{IsSessionEnd, Performs, stage_of};
ghost use Rattle.cm_top.specs.Ways.{plain_way, store_way};

use crate::commands::run_command;
use crate::printed::Printed;
use cm_base::{Compiler, Folder, NoMemory, Sink, Text, Tool};
use command_parts::{Status, edit_end, run_usage};
use command_words::read_words;
use generated_projects::generated_steps;
use session_scripts::Step;
use std::alloc::Global;
use tool_deriving::Toolbox;

/// Does the command that words mean, and prints the last line of its report alone.
fn do_words<F: Folder, S: Sink, C: Compiler, T: Tool>(
    alloc: Global,
    words: &[Text],
    folder: &mut F,
    out: &mut S,
    compiler: &mut C,
    tools: &mut Toolbox<T>,
) -> Status
    requires { command_of words.now ≢ None }
    ensures folder { HasCause (F.faults folder.old) (F.faults folder.new) (result ≡ Status.FolderFault) }
    ensures sink { HasCause (S.faults out.old) (S.faults out.new) (result ≡ Status.SinkFault) }
    ensures end { IsSessionEnd result }
    ensures performs { Performs C.defines
        (λ rules files. of_words Printed.LastLine (store_way C.defines rules) files (command_of words.now))
        (λ rules files. of_words Printed.LastLine (plain_way C.defines rules) files (command_of words.now)) result
        (stage_of (S.written out.old) (F.holds folder.old) (C.asked compiler.old) (C.asked_skeletons compiler.old)
        (states_by T.class T.rule T.ran T.faults tools.old))
        (stage_of (S.written out.new) (F.holds folder.new) (C.asked compiler.new) (C.asked_skeletons compiler.new)
        (states_by T.class T.rule T.ran T.faults tools.new)) }
{
    match read_words(alloc, words) {
        Ok(Some(command)) => run_command(
            alloc,
            Printed::LastLine,
            &command,
            folder,
            out,
            compiler,
            tools,
        ),
        Ok(None) => run_usage(alloc, folder, out, compiler),
        Err(NoMemory) => Status::NoMemory,
    }
}

/// Does a part of a project.
fn do_part<F: Folder, S: Sink, C: Compiler, T: Tool>(
    alloc: Global,
    part: &Step,
    folder: &mut F,
    out: &mut S,
    compiler: &mut C,
    tools: &mut Toolbox<T>,
) -> Status
    requires { IsPart part.now }
    ensures folder { HasCause (F.faults folder.old) (F.faults folder.new) (result ≡ Status.FolderFault) }
    ensures sink { HasCause (S.faults out.old) (S.faults out.new) (result ≡ Status.SinkFault) }
    ensures end { IsSessionEnd result }
    ensures performs { Performs C.defines (λ rules files. of_part (store_way C.defines rules) files part.now)
        (λ rules files. of_part (plain_way C.defines rules) files part.now) result
        (stage_of (S.written out.old) (F.holds folder.old) (C.asked compiler.old) (C.asked_skeletons compiler.old)
        (states_by T.class T.rule T.ran T.faults tools.old))
        (stage_of (S.written out.new) (F.holds folder.new) (C.asked compiler.new) (C.asked_skeletons compiler.new)
        (states_by T.class T.rule T.ran T.faults tools.new)) }
{
    match part {
        Step::Write { path, content } => edit_end(folder.write(alloc, path, content.as_bytes())),
        Step::Remove { path } => edit_end(folder.remove(alloc, path)),
        Step::Command { words } => {
            do_words(alloc, words.as_slice(), folder, out, compiler, tools)
        }
    }
}

/// Does the parts of a project in their order, as long as they end well.
fn make<F: Folder, S: Sink, C: Compiler, T: Tool>(
    alloc: Global,
    parts: &[Step],
    folder: &mut F,
    out: &mut S,
    compiler: &mut C,
    tools: &mut Toolbox<T>,
) -> Status
    requires { AllByRecursion IsPart parts.now }
    ensures folder { HasCause (F.faults folder.old) (F.faults folder.new) (result ≡ Status.FolderFault) }
    ensures sink { HasCause (S.faults out.old) (S.faults out.new) (result ≡ Status.SinkFault) }
    ensures end { IsSessionEnd result }
    ensures performs { Performs C.defines (λ rules. make (store_way C.defines rules) parts.now)
        (λ rules. make (plain_way C.defines rules) parts.now) result
        (stage_of (S.written out.old) (F.holds folder.old) (C.asked compiler.old) (C.asked_skeletons compiler.old)
        (states_by T.class T.rule T.ran T.faults tools.old))
        (stage_of (S.written out.new) (F.holds folder.new) (C.asked compiler.new) (C.asked_skeletons compiler.new)
        (states_by T.class T.rule T.ran T.faults tools.new)) }
{
    for part in parts {
        match do_part(alloc, part, folder, out, compiler, tools) {
            Status::Ok => {}
            status => return status,
        }
    }
    Status::Ok
}

/// Makes a project of so many units, from 1 to 2,000, in the folder `gen`, and builds it twice: the source in the middle is
/// written again between, with a comment. The last line of each report is printed, and a diagnostic ends it. A fault of
/// the folder, the output or a tool, or want of memory, ends it so. Outside the store nothing but the project's files
/// changes.
pub fn generate<F: Folder, S: Sink, C: Compiler, T: Tool>(
    alloc: Global,
    n: u32,
    folder: &mut F,
    out: &mut S,
    compiler: &mut C,
    tools: &mut Toolbox<T>,
) -> Status
    requires least { 1 ≤ n }
    requires greatest { n ≤ 2000 }
    ensures folder { HasCause (F.faults folder.old) (F.faults folder.new) (result ≡ Status.FolderFault) }
    ensures sink { HasCause (S.faults out.old) (S.faults out.new) (result ≡ Status.SinkFault) }
    ensures end { IsSessionEnd result }
    ensures performs { Performs C.defines (λ rules. generating (store_way C.defines rules) n)
        (λ rules. generating (plain_way C.defines rules) n) result
        (stage_of (S.written out.old) (F.holds folder.old) (C.asked compiler.old) (C.asked_skeletons compiler.old)
        (states_by T.class T.rule T.ran T.faults tools.old))
        (stage_of (S.written out.new) (F.holds folder.new) (C.asked compiler.new) (C.asked_skeletons compiler.new)
        (states_by T.class T.rule T.ran T.faults tools.new)) }
    ensures project { Told (F.holds folder.old) (λ files. KeepsOutside (files_of n) files (F.holds folder.new)) }
{
    match generated_steps(alloc, n) {
        Ok(parts) => make(alloc, parts.as_slice(), folder, out, compiler, tools),
        Err(NoMemory) => Status::NoMemory,
    }
}
