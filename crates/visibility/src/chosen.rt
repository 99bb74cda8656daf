//! The items that an export list chooses.

ghost use Rattle.cm_base.specs.Calls.{Gives};
ghost use Rattle.visibility.specs.Choosing.{chosen_items};

use cm_base::{Def, Fault, List, ModName};
use cm_conditions::{Line, select};
use std::alloc::Global;

/// The numbers of the items that lines choose, where these modules are there, or 3 or 4.
#[tactic(auto, using(crate::proofs::ChosenItems::selected_is))]
pub(crate) fn chosen(
    alloc: Global,
    lines: &List<Line>,
    defs: &List<Def>,
    there: &List<ModName>,
) -> Result<List<u32>, Fault>
    ensures { Gives result (chosen_items defs.now there.now lines.now) }
{
    select(alloc, lines, defs, there)
}
