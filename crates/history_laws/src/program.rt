//! A call of the program, as histories have it.

ghost use Rattle.std.specs.Prelude.{◌≡◌, Some, map, string_bytes};
ghost use Rattle.cm_base.specs.Files.{Files, Told};
ghost use Rattle.group_loader.specs.Loading.{states_by};
ghost use Rattle.command_parts.specs.Headline.{run_of};
ghost use Rattle.history_laws.specs.Calls.{IsCall};

use cm_base::{Compiler, Folder, Sink, Tool};
use cm_top::run_cm;
use command_parts::Status;
use std::alloc::Global;
use tool_deriving::Toolbox;

/// Calls the program. Where the folder and the output tell what they hold, this is a call of those of which histories
/// consist: what it did and left is what the contract of `run_cm` says, whatever it answered.
pub fn call_program<F: Folder, S: Sink, C: Compiler, T: Tool>(
    alloc: Global,
    words: &[String],
    folder: &mut F,
    out: &mut S,
    compiler: &mut C,
    tools: &mut Toolbox<T>,
) -> Status
    ensures { Told (F.holds folder.old) (λ files. Told (S.written out.old) (λ text. (left : Files)
        → F.holds folder.new ≡ Some left → IsCall C.defines files (map string_bytes words.now)
        (states_by T.class T.rule T.ran T.faults tools.old) result
        (run_of text (S.written out.new) (F.holds folder.new) (C.asked compiler.old) (C.asked compiler.new)
        (C.asked_skeletons compiler.old) (C.asked_skeletons compiler.new))
        (states_by T.class T.rule T.ran T.faults tools.new) left)) }
{
    run_cm(alloc, words, folder, out, compiler, tools)
}
