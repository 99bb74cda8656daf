//! Units sorted by rank and then by name.

ghost use Rattle.std.specs.Prelude.{◌≡◌, ℕ, ◌+◌, ◌^◌, ◌<◌, List, [], ◌∷◌, ◌++◌, length, map, slice_index_or, All, IfOk, IsPermutation, IsSorted};
ghost use Rattle.dependency_graph.specs.Ranked.{AreRanked, IsSortedOrder, ranked_cmp};

use cm_base::{List, NoMemory, Text};
use std::alloc::Global;

/// A unit with what it is sorted by. The unit's number comes last, where no two units have one name.
#[derive(PartialEq, Eq, PartialOrd, Ord, Drop)]
pub(crate) struct Ranked {
    pub rank: u32,
    pub name: Text,
    pub unit: u32,
}

/// Each unit with its rank and a copy of its name.
fn with_names(alloc: Global, names: &[Text], ranks: &[u32]) -> Result<Vec<Ranked>, NoMemory>
    requires counted { length ranks.now ≡ length names.now }
    requires few { length names.now < 2 ^ 32 }
    ensures { IfOk result (λ all. AreRanked names.now ranks.now (length names.now) all.items) }
{
    let mut all = Vec::new(alloc);
    for unit in 0..names.len() {
        let name = names[unit].copy()?;
        all.push(Ranked {
            rank: ranks[unit],
            name,
            unit: unit as u32,
        })?;
    }
    Ok(all)
}

/// All units in the order of their ranks and then of their names.
pub(crate) fn sorted(alloc: Global, names: &[Text], ranks: &[u32]) -> Result<Vec<Ranked>, NoMemory>
    requires counted { length ranks.now ≡ length names.now }
    requires few { length names.now < 2 ^ 32 }
    ensures { IfOk result (λ all. IsSortedOrder names.now ranks.now all.items) }
{
    let mut all = with_names(alloc, names, ranks)?;
    all.sort()?;
    Ok(all)
}

/// The numbers of the units, in the same order.
pub(crate) fn units_of(alloc: Global, all: &[Ranked]) -> Result<List<u32>, NoMemory>
    ensures { IfOk result (λ units. units ≡ map (λ ranked. ranked.unit) all.now) }
{
    let mut units = Vec::new(alloc);
    for ranked in all {
        units.push(ranked.unit)?;
    }
    Ok(List::from_vec(units))
}
