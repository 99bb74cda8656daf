//! The program: the words of a command line, done in a folder with a box of tools and printed to a sink.

ghost use Rattle.std.specs.Prelude.{◌≡◌, ◌++◌, ℕ, zero, List, None, Some, map, string_bytes};
ghost use Rattle.cm_base.specs.Causes.{HasCause, Rose};
ghost use Rattle.cm_base.specs.Files.{Told};
ghost use Rattle.cm_base.specs.Keeping.{Keeps};
ghost use Rattle.bin_store.specs.GoodStore.{IsGoodStore};
ghost use Rattle.cm_bytes.specs.Hashes.{HashesApart};
ghost use Rattle.command_words.specs.Words.{call_of};
ghost use Rattle.tool_deriving.specs.Toolboxes.{rules_of};
ghost use Rattle.group_loader.specs.Loading.{Failed, Tends, states_by};
ghost use Rattle.command_parts.specs.Headline.{Ends, IsUsageEnd, KeepsOutside, Stays, run_of};
ghost use Rattle.command_parts.specs.Performing.{LeavesAt};
ghost use Rattle.command_parts.specs.Sessions.{KeepsTarget};
ghost use Rattle.cm_top.specs.Headline.{Completes, IsAsPromised, IsComplete, Ran};
ghost use Rattle.cm_top.specs.Performing.{Performs, rules_among, stage_of};
ghost use Rattle.cm_top.specs.Sessions.{doing_of_call, meaning_of_call, of_call, of_line};
ghost use Rattle.cm_top.specs.Ways.{plain_way, store_way};

use crate::commands::run_command;
use crate::generating::generate;
use crate::printed::Printed;
use crate::sessions::session;
use cm_base::{Compiler, Folder, NoMemory, Sink, SureFolder, SureSink, Text, Tool};
use command_parts::{Status, run_usage};
use command_words::{Call, read_call, read_line};
use std::alloc::Global;
use tool_deriving::Toolbox;

/// Does the command that the words of a session's step mean: one by itself, or a generated project.
pub(crate) fn run_words<F: Folder, S: Sink, C: Compiler, T: Tool>(
    alloc: Global,
    words: &[Text],
    folder: &mut F,
    out: &mut S,
    compiler: &mut C,
    tools: &mut Toolbox<T>,
) -> Status
    ensures folder { HasCause (F.faults folder.old) (F.faults folder.new) (result ≡ Status.FolderFault) }
    ensures sink { HasCause (S.faults out.old) (S.faults out.new) (result ≡ Status.SinkFault) }
    ensures performs { Performs C.defines (λ rules files. of_line (store_way C.defines rules) files (call_of words.now))
        (λ rules files. of_line (plain_way C.defines rules) files (call_of words.now)) result
        (stage_of (S.written out.old) (F.holds folder.old) (C.asked compiler.old) (C.asked_skeletons compiler.old)
        (states_by T.class T.rule T.ran T.faults tools.old))
        (stage_of (S.written out.new) (F.holds folder.new) (C.asked compiler.new) (C.asked_skeletons compiler.new)
        (states_by T.class T.rule T.ran T.faults tools.new)) }
{
    match read_line(alloc, words) {
        Ok(Some(Call::Single(single))) => run_command(
            alloc,
            Printed::Report,
            &single,
            folder,
            out,
            compiler,
            tools,
        ),
        Ok(Some(Call::Gen { n })) => generate(alloc, n, folder, out, compiler, tools),
        Ok(Some(Call::Session { .. })) => run_usage(alloc, folder, out, compiler),
        Ok(None) => run_usage(alloc, folder, out, compiler),
        Err(NoMemory) => Status::NoMemory,
    }
}

/// Does what the words of a call mean.
fn run_call<F: Folder, S: Sink, C: Compiler, T: Tool>(
    alloc: Global,
    words: &[String],
    folder: &mut F,
    out: &mut S,
    compiler: &mut C,
    tools: &mut Toolbox<T>,
) -> Status
    ensures folder { HasCause (F.faults folder.old) (F.faults folder.new) (result ≡ Status.FolderFault) }
    ensures sink { HasCause (S.faults out.old) (S.faults out.new) (result ≡ Status.SinkFault) }
    ensures usage { result ≡ Status.Usage → call_of (map string_bytes words.now) ≡ None }
    ensures nothing { call_of (map string_bytes words.now) ≡ None → IsUsageEnd result }
    ensures performs { Performs C.defines
        (λ rules files. of_call (store_way C.defines rules) files (call_of (map string_bytes words.now)))
        (λ rules files. of_call (plain_way C.defines rules) files (call_of (map string_bytes words.now))) result
        (stage_of (S.written out.old) (F.holds folder.old) (C.asked compiler.old) (C.asked_skeletons compiler.old)
        (states_by T.class T.rule T.ran T.faults tools.old))
        (stage_of (S.written out.new) (F.holds folder.new) (C.asked compiler.new) (C.asked_skeletons compiler.new)
        (states_by T.class T.rule T.ran T.faults tools.new)) }
    ensures project { Told (F.holds folder.old) (λ files. KeepsTarget (call_of (map string_bytes words.now))
        (of_call (store_way C.defines (rules_among (states_by T.class T.rule T.ran T.faults tools.old))) files
        (call_of (map string_bytes words.now))).effect files (F.holds folder.new)) }
{
    match read_call(alloc, words) {
        Ok(Some(Call::Single(command))) => run_command(
            alloc,
            Printed::Report,
            &command,
            folder,
            out,
            compiler,
            tools,
        ),
        Ok(Some(Call::Gen { n })) => generate(alloc, n, folder, out, compiler, tools),
        Ok(Some(Call::Session { file })) => session(alloc, &file, folder, out, compiler, tools),
        Ok(None) => run_usage(alloc, folder, out, compiler),
        Err(NoMemory) => Status::NoMemory,
    }
}

/// Does what the words after the program's name mean, with the tools of a box, and answers how it ended.
///
/// From a good store, where no two differing interfaces share a hash: the status, the bytes printed, the files, what the
/// compiler was asked and how often each tool ran are those of the words' meaning, in which the compiler is asked for
/// what is stale, and a tool runs where its record differs; after a fault or want of memory a front of that was printed,
/// asked for and run; and whatever the answer and the output, each path that the command doesn't write is as it was, and
/// the store is good.
///
/// There a command whose folder, output and tools met no failure ends with the meaning's status, or for want of memory.
///
/// Over any store: it does what `doing_of_call` says, and where no fault came its status and its files, whatever the
/// output tells; whatever the answer, each path that this doesn't write is as it was,
/// and so is each one outside the store but OUT of `link`, the files of a generated project and the paths of a session's
/// edits. `FolderFault` and `SinkFault` come only where the folder or the sink failed, `ToolFault` only where a tool failed
/// that this call ran, and `Usage` only for words that mean nothing. The box has the same classes and rules.
pub fn run_cm<F: Folder, S: Sink, C: Compiler, T: Tool>(
    alloc: Global,
    words: &[String],
    folder: &mut F,
    out: &mut S,
    compiler: &mut C,
    tools: &mut Toolbox<T>,
) -> Status
    ensures folder { HasCause (F.faults folder.old) (F.faults folder.new) (result ≡ Status.FolderFault) }
    ensures sink { HasCause (S.faults out.old) (S.faults out.new) (result ≡ Status.SinkFault) }
    ensures tool { Tends (result ≡ Status.ToolFault) (states_by T.class T.rule T.ran T.faults tools.old)
        (states_by T.class T.rule T.ran T.faults tools.new) }
    ensures usage { result ≡ Status.Usage → call_of (map string_bytes words.now) ≡ None }
    ensures nothing { call_of (map string_bytes words.now) ≡ None → IsUsageEnd result }
    ensures does { Told (F.holds folder.old) (λ files. Told (S.written out.old) (λ text. Ends result
        (doing_of_call C.defines (rules_of T.class T.rule tools.old) (map string_bytes words.now) files).effect
        (run_of text (S.written out.new) (F.holds folder.new) (C.asked compiler.old) (C.asked compiler.new)
        (C.asked_skeletons compiler.old) (C.asked_skeletons compiler.new)))) }
    ensures runs { Told (F.holds folder.old) (λ files. Ran result
        (doing_of_call C.defines (rules_of T.class T.rule tools.old) (map string_bytes words.now) files).runs
        (states_by T.class T.rule T.ran T.faults tools.old) (states_by T.class T.rule T.ran T.faults tools.new)) }
    ensures frame { Told (F.holds folder.old) (λ files. Keeps (Some files) (F.holds folder.new)
        (doing_of_call C.defines (rules_of T.class T.rule tools.old) (map string_bytes words.now) files).effect.paths) }
    ensures outside { Told (F.holds folder.old) (λ files. KeepsOutside
        (doing_of_call C.defines (rules_of T.class T.rule tools.old) (map string_bytes words.now) files).effect.outside
        files (F.holds folder.new)) }
    ensures project { Told (F.holds folder.old) (λ files. KeepsTarget (call_of (map string_bytes words.now))
        (doing_of_call C.defines (rules_of T.class T.rule tools.old) (map string_bytes words.now) files).effect files
        (F.holds folder.new)) }
    ensures stays { Told (F.holds folder.old) (λ files. Stays C.defines files
        (meaning_of_call C.defines (rules_of T.class T.rule tools.old) (map string_bytes words.now) files).effect
        (F.holds folder.new)) }
    ensures leaves { Told (F.holds folder.old) (λ files. LeavesAt result C.defines files
        (doing_of_call C.defines (rules_of T.class T.rule tools.old) (map string_bytes words.now) files).effect
        (meaning_of_call C.defines (rules_of T.class T.rule tools.old) (map string_bytes words.now) files).effect
        (F.holds folder.new)) }
    ensures promise { Told (F.holds folder.old) (λ files. Told (S.written out.old) (λ text. IsAsPromised C.defines files
        (meaning_of_call C.defines (rules_of T.class T.rule tools.old) (map string_bytes words.now) files) result
        (run_of text (S.written out.new) (F.holds folder.new) (C.asked compiler.old) (C.asked compiler.new)
        (C.asked_skeletons compiler.old) (C.asked_skeletons compiler.new))
        (states_by T.class T.rule T.ran T.faults tools.old) (states_by T.class T.rule T.ran T.faults tools.new))) }
    ensures complete { Told (F.holds folder.old) (λ files. Told (S.written out.old) (λ text. Completes C.defines files
        (meaning_of_call C.defines (rules_of T.class T.rule tools.old) (map string_bytes words.now) files) result
        (Rose (F.faults folder.old) (F.faults folder.new)) (Rose (S.faults out.old) (S.faults out.new))
        (Failed (states_by T.class T.rule T.ran T.faults tools.old)
        (states_by T.class T.rule T.ran T.faults tools.new)))) }
{
    run_call(alloc, words, folder, out, compiler, tools)
}

/// `run_cm`, of which completeness alone is told.
fn run_to_its_end<F: Folder, S: Sink, C: Compiler, T: Tool>(
    alloc: Global,
    words: &[String],
    folder: &mut F,
    out: &mut S,
    compiler: &mut C,
    tools: &mut Toolbox<T>,
) -> Status
    ensures { Told (F.holds folder.old) (λ files. Told (S.written out.old) (λ text. Completes C.defines files
        (meaning_of_call C.defines (rules_of T.class T.rule tools.old) (map string_bytes words.now) files) result
        (Rose (F.faults folder.old) (F.faults folder.new)) (Rose (S.faults out.old) (S.faults out.new))
        (Failed (states_by T.class T.rule T.ran T.faults tools.old)
        (states_by T.class T.rule T.ran T.faults tools.new)))) }
{
    run_cm(alloc, words, folder, out, compiler, tools)
}

/// `run_cm` over a folder, an output and tools that never fail.
pub fn run_sure<C: Compiler, T: Tool>(
    alloc: Global,
    words: &[String],
    folder: &mut SureFolder,
    out: &mut SureSink,
    compiler: &mut C,
    tools: &mut Toolbox<T>,
) -> Status
    ensures { ((tool : T) → T.faults tool ≡ zero) → (known : List (List ℕ))
        → HashesApart (known ++ (meaning_of_call C.defines (rules_of T.class T.rule tools.old)
        (map string_bytes words.now) folder.old).effect.interfaces)
        → IsGoodStore C.defines known folder.old
        → IsComplete result (meaning_of_call C.defines (rules_of T.class T.rule tools.old)
        (map string_bytes words.now) folder.old) }
{
    run_to_its_end(alloc, words, folder, out, compiler, tools)
}
