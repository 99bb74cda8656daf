//! Uses in the order of their places.

ghost use Rattle.std.specs.Prelude.{◌≡◌, IfOk, map};
ghost use Rattle.std.specs.FinMap.{empty, from_entries};
ghost use Rattle.std.specs.List.Sorted.{IsStrictlySortedBy};
ghost use Rattle.std.specs.Map.{keys_of};
ghost use Rattle.skeletons.specs.Skeletons.{position_cmp, placed, in_order};

use crate::names::more;
use cm_base::{List, Need, NoMemory};
use std::alloc::Global;
use std::collections::BTreeMap;

/// Where a use stands: its line, the byte in it, and its number in the tree's order.
#[derive(Clone, Copy, Debug, PartialEq, Eq, PartialOrd, Ord)]
pub(crate) struct Position {
    pub line: u32,
    pub col: u32,
    pub number: usize,
}

/// The uses by their places.
fn by_place(alloc: Global, uses: Vec<Need>) -> Result<BTreeMap<Position, Need>, NoMemory>
    ensures { IfOk result (λ table. from_entries table.entries ≡ placed empty 0 uses.items) }
{
    let mut table = BTreeMap::new(alloc);
    let mut number = 0;
    for need in uses {
        let place = Position {
            line: need.spot.line,
            col: need.spot.col,
            number,
        };
        table.insert(place, need)?;
        number = more(number)?;
    }
    Ok(table)
}

/// The uses of a table in the order of their places.
fn listed(alloc: Global, table: BTreeMap<Position, Need>) -> Result<List<Need>, NoMemory>
    ensures listed { IfOk result (λ list. list ≡ map (λ (e : Position × Need). e.1) table.entries) }
    ensures ordered { IsStrictlySortedBy position_cmp (keys_of table.entries) }
{
    let mut list = List::new(alloc);
    for (_, need) in table {
        list.add(need)?;
    }
    Ok(list)
}

/// Uses in the order of their places.
pub(crate) fn in_order(alloc: Global, uses: List<Need>) -> Result<List<Need>, NoMemory>
    ensures { IfOk result (λ list. list ≡ in_order uses) }
{
    listed(alloc, by_place(alloc, uses.into_vec())?)
}
