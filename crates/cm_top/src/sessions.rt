//! Sessions: the edits and commands of a script, done one after the other.

ghost use Rattle.std.specs.Prelude.{◌≡◌};
ghost use Rattle.std.specs.List.{AllByRecursion};
ghost use Rattle.cm_base.specs.Causes.{HasCause};
ghost use Rattle.command_words.specs.Words.{call_of};
ghost use Rattle.group_loader.specs.Loading.{states_by};
ghost use Rattle.command_parts.specs.Sessions.{IsLawful, script_in};
ghost use Rattle.cm_top.specs.Performing.{IsSessionEnd, IsStepEnd, Performs, stage_of};
ghost use Rattle.cm_top.specs.Sessions.{of_line, of_script, of_step, play, reported};
ghost use Rattle.cm_top.specs.Ways.{plain_way, store_way};

use crate::run::run_words;
use cm_base::{Compiler, Folder, Sink, Text, Tool};
use command_parts::{Status, edit_end, find_script, is_plain, print_refusal, print_status};
use loader_parts::ReadFault;
use session_scripts::Step;
use std::alloc::Global;
use tool_deriving::Toolbox;

/// Does a command, and prints how it ended unless a fault came.
fn do_command<F: Folder, S: Sink, C: Compiler, T: Tool>(
    alloc: Global,
    words: &[Text],
    folder: &mut F,
    out: &mut S,
    compiler: &mut C,
    tools: &mut Toolbox<T>,
) -> Status
    ensures folder { HasCause (F.faults folder.old) (F.faults folder.new) (result ≡ Status.FolderFault) }
    ensures sink { HasCause (S.faults out.old) (S.faults out.new) (result ≡ Status.SinkFault) }
    ensures end { IsStepEnd result }
    ensures performs { Performs C.defines
        (λ rules files. reported (of_line (store_way C.defines rules) files (call_of words.now)))
        (λ rules files. reported (of_line (plain_way C.defines rules) files (call_of words.now))) result
        (stage_of (S.written out.old) (F.holds folder.old) (C.asked compiler.old) (C.asked_skeletons compiler.old)
        (states_by T.class T.rule T.ran T.faults tools.old))
        (stage_of (S.written out.new) (F.holds folder.new) (C.asked compiler.new) (C.asked_skeletons compiler.new)
        (states_by T.class T.rule T.ran T.faults tools.new)) }
{
    let status = run_words(alloc, words, folder, out, compiler, tools);
    if !is_plain(status) {
        return status;
    }
    print_status(alloc, out, status)
}

/// Does a step.
fn do_step<F: Folder, S: Sink, C: Compiler, T: Tool>(
    alloc: Global,
    step: &Step,
    folder: &mut F,
    out: &mut S,
    compiler: &mut C,
    tools: &mut Toolbox<T>,
) -> Status
    requires { IsLawful step.now }
    ensures folder { HasCause (F.faults folder.old) (F.faults folder.new) (result ≡ Status.FolderFault) }
    ensures sink { HasCause (S.faults out.old) (S.faults out.new) (result ≡ Status.SinkFault) }
    ensures end { IsStepEnd result }
    ensures performs { Performs C.defines (λ rules files. of_step (store_way C.defines rules) files step.now)
        (λ rules files. of_step (plain_way C.defines rules) files step.now) result
        (stage_of (S.written out.old) (F.holds folder.old) (C.asked compiler.old) (C.asked_skeletons compiler.old)
        (states_by T.class T.rule T.ran T.faults tools.old))
        (stage_of (S.written out.new) (F.holds folder.new) (C.asked compiler.new) (C.asked_skeletons compiler.new)
        (states_by T.class T.rule T.ran T.faults tools.new)) }
{
    match step {
        Step::Write { path, content } => edit_end(folder.write(alloc, path, content.as_bytes())),
        Step::Remove { path } => edit_end(folder.remove(alloc, path)),
        Step::Command { words } => {
            do_command(alloc, words.as_slice(), folder, out, compiler, tools)
        }
    }
}

/// Does steps in their order, up to the first fault.
fn play<F: Folder, S: Sink, C: Compiler, T: Tool>(
    alloc: Global,
    steps: &[Step],
    folder: &mut F,
    out: &mut S,
    compiler: &mut C,
    tools: &mut Toolbox<T>,
) -> Status
    requires { AllByRecursion IsLawful steps.now }
    ensures folder { HasCause (F.faults folder.old) (F.faults folder.new) (result ≡ Status.FolderFault) }
    ensures sink { HasCause (S.faults out.old) (S.faults out.new) (result ≡ Status.SinkFault) }
    ensures end { IsStepEnd result }
    ensures performs { Performs C.defines (λ rules. play (store_way C.defines rules) steps.now)
        (λ rules. play (plain_way C.defines rules) steps.now) result
        (stage_of (S.written out.old) (F.holds folder.old) (C.asked compiler.old) (C.asked_skeletons compiler.old)
        (states_by T.class T.rule T.ran T.faults tools.old))
        (stage_of (S.written out.new) (F.holds folder.new) (C.asked compiler.new) (C.asked_skeletons compiler.new)
        (states_by T.class T.rule T.ran T.faults tools.new)) }
{
    for step in steps {
        match do_step(alloc, step, folder, out, compiler, tools) {
            Status::Ok => {}
            status => return status,
        }
    }
    Status::Ok
}

/// Does the edits and commands of the script FILE, `script` as it is written, one after the other. The whole script is
/// read first: a refusal of it is the only line, and nothing is done. Behind the output of each command stands the line
/// `[status N]`. A fault of the folder, the output or a tool, or want of memory, in a step ends the session so.
pub fn session<F: Folder, S: Sink, C: Compiler, T: Tool>(
    alloc: Global,
    script: &Text,
    folder: &mut F,
    out: &mut S,
    compiler: &mut C,
    tools: &mut Toolbox<T>,
) -> Status
    ensures folder { HasCause (F.faults folder.old) (F.faults folder.new) (result ≡ Status.FolderFault) }
    ensures sink { HasCause (S.faults out.old) (S.faults out.new) (result ≡ Status.SinkFault) }
    ensures end { IsSessionEnd result }
    ensures performs { Performs C.defines
        (λ rules files. of_script (store_way C.defines rules) files (script_in files script.now))
        (λ rules files. of_script (plain_way C.defines rules) files (script_in files script.now)) result
        (stage_of (S.written out.old) (F.holds folder.old) (C.asked compiler.old) (C.asked_skeletons compiler.old)
        (states_by T.class T.rule T.ran T.faults tools.old))
        (stage_of (S.written out.new) (F.holds folder.new) (C.asked compiler.new) (C.asked_skeletons compiler.new)
        (states_by T.class T.rule T.ran T.faults tools.new)) }
{
    match find_script(alloc, folder, script) {
        Ok(steps) => play(alloc, steps.as_slice(), folder, out, compiler, tools),
        Err(ReadFault::Diag(diag)) => print_refusal(alloc, &diag, folder, out, compiler),
        Err(ReadFault::Folder) => Status::FolderFault,
        Err(ReadFault::NoMemory) => Status::NoMemory,
    }
}
