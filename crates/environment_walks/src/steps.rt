//! The steps of a walk.

ghost use Rattle.std.specs.Prelude.{◌≡◌, ◌++◌, map, OnOk};
ghost use Rattle.environment_walks.specs.Stepping.{entered};

use cm_base::{List, NoMemory};
use env_parts::Rows;
use std::alloc::Global;

/// A step of a walk: a node is met, or the parts of a node are done.
#[derive(Clone, Copy)]
pub enum Step {
    Enter(usize),
    Leave(usize),
}

/// Some places are still to be met, the first one next.
pub fn enter_all(places: &List<usize>, steps: &mut List<Step>) -> Result<(), NoMemory>
    ensures { OnOk result (steps.new ≡ steps.old ++ entered places.now) }
{
    let mut rest = places.as_slice();
    while let Some((last, before)) = rest.split_last() {
        steps.add(Step::Enter(*last))?;
        rest = before;
    }
    Ok(())
}

/// All places of rows are still to be met, the first one next.
pub fn enter_rows(alloc: Global, rows: &Rows, steps: &mut List<Step>) -> Result<(), NoMemory>
    ensures { OnOk result (steps.new ≡ steps.old ++ entered (map (λ row. row.1) rows.now)) }
{
    let places = rows.places(alloc)?;
    enter_all(&places, steps)
}
