//! The two calls, whose answers are those of the functions.

ghost use Rattle.std.specs.Prelude.{All, IfOk, length};
ghost use Rattle.cm_base.specs.Calls.{Gives};
ghost use Rattle.cm_description.specs.WellFormed.{IsItemBelow};
ghost use Rattle.description_values.specs.Choice.{chosen_items};
ghost use Rattle.description_values.specs.Described.{description_of};

use cm_base::{Def, Fault, List, ModName, Text};
use cm_conditions::{Line, select};
use cm_description::{Description, read_description};
use std::alloc::Global;

/// The description that a file's text is, or its first refusal. Its export lines number its entries.
pub fn describe(alloc: Global, file: &Text, text: &Text) -> Result<Description, Fault>
    ensures gives { Gives result (description_of file.now text.now) }
    ensures numbered { IfOk result (λ d. All (λ line. IsItemBelow (length d.entries) line.body) d.export_lines) }
{
    read_description(alloc, file, text)
}

/// The numbers of the items that a list of lines chooses, or the first refusal.
#[tactic(auto, using(crate::proofs::Choosing::chooses_items))]
pub fn choose(
    alloc: Global,
    lines: &List<Line>,
    defs: &List<Def>,
    modules: &List<ModName>,
) -> Result<List<u32>, Fault>
    ensures { Gives result (chosen_items defs.now modules.now lines.now) }
{
    select(alloc, lines, defs, modules)
}
