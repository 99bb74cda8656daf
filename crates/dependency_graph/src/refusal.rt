//! The refusal of a cycle.

ghost use Rattle.std.specs.Prelude.{◌≡◌, IfOk};
ghost use Rattle.dependency_graph.specs.Order.{name_of};
ghost use Rattle.dependency_graph.specs.Ordered.{cycle_diag, first_of};

use cm_base::{Diag, List, NoMemory, Place, Text};
use std::alloc::Global;

/// The name of a unit.
fn name_at(alloc: Global, names: &List<Text>, unit: u32) -> Result<Text, NoMemory>
    ensures { IfOk result (λ name. name ≡ name_of names.now unit) }
{
    match names.get(unit as usize) {
        Some(name) => name.copy(),
        None => Text::from_bytes(alloc, b""),
    }
}

/// The first of these units.
fn first_of(units: &[u32]) -> u32
    ensures { result ≡ first_of units.now }
{
    match units {
        [unit, ..] => *unit,
        [] => 0,
    }
}

/// The refusal of the cycle that `order` answers: 26 on the file of its first unit, with the names of its units, the
/// first one not again at the end.
pub fn cycle_diag(alloc: Global, names: &List<Text>, cycle: &List<u32>) -> Result<Diag, NoMemory>
    ensures { IfOk result (λ diag. diag ≡ cycle_diag names.now cycle.now) }
{
    let units = cycle.as_slice();
    let file = name_at(alloc, names, first_of(units))?;
    let mut shown = List::new(alloc);
    for unit in units {
        shown.add(name_at(alloc, names, *unit)?)?;
    }
    Ok(Diag {
        number: 26,
        at: Place {
            file,
            line: 0,
            col: 0,
        },
        names: shown,
    })
}
