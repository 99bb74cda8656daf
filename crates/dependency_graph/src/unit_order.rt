//! The order of units as callers see it.

ghost use Rattle.std.specs.Prelude.{◌≡◌, ◌+◌, ◌^◌, ◌<◌, Some, List, length, map, slice_get, All, IfOk};
ghost use Rattle.dependency_graph.specs.Order.{AllAreUnits, AllDiffer, placed_units};
ghost use Rattle.dependency_graph.specs.Cycle.{Answers, HasCycle, IsNearestCycle};
ghost use Rattle.dependency_graph.specs.Ordered.{GivesOrder, ordered};
ghost use Rattle.dependency_graph.specs.Ranked.{IsPlacing};

use crate::cycle::nearest_cycle;
use crate::ranked::{sorted, units_of};
use crate::ranks::ranks_of;
use cm_base::{List, NoMemory, Text};
use std::alloc::Global;
use std::marker::Model;

/// Why there is no order.
#[derive(Debug, Drop)]
pub enum OrderFault {
    /// The units of a cycle: the least unit on any cycle, then each time the import nearest to it.
    Cycle(List<u32>),
    NoMemory,
}

impl From<NoMemory> for OrderFault {
    ghost use Rattle.std.specs.Prelude.{◌≡◌};
    ghost use Rattle.dependency_graph.specs.declared.unit_order.OrderFault.TheVariants.{NoMemory as memory};

    ghost from_gives = { λ _ fault. fault ≡ memory };

    fn from(_error: NoMemory) -> Self {
        OrderFault::NoMemory
    }
}

/// The units in order, with their ranks.
#[derive(Debug, Drop)]
pub struct UnitOrder {
    units: List<u32>,
    ranks: List<u32>,
}

impl Model for UnitOrder {
    ghost use Rattle.std.specs.Prelude.{◌≡◌, List, length};
    ghost use Rattle.dependency_graph.specs.Order.{Placed, placed_units};

    ghost Value = { List Placed };

    ghost view = { λ o. placed_units o.ranks o.units };

    ghost invariant = { λ o. length o.ranks ≡ length o.units };
}

/// The order of the units by rank and then by name. `Err` is `Cycle` exactly where the edges have a cycle.
#[tactic(auto, using(crate::proofs::CycleValue::gives_order))]
pub fn order(
    alloc: Global,
    names: &List<Text>,
    edges: &List<List<u32>>,
) -> Result<UnitOrder, OrderFault>
    requires lists { length edges.now ≡ length names.now }
    requires few { length names.now < 2 ^ 32 }
    requires units { AllAreUnits edges.now }
    requires apart { AllDiffer names.now }
    ensures relations { Answers names.now edges.now result }
    ensures gives { GivesOrder result (ordered names.now edges.now) }
{
    match ranks_of(alloc, edges.as_slice())? {
        Some(ranks) => Ok(in_order(alloc, names.as_slice(), ranks)?),
        None => Err(OrderFault::Cycle(nearest_cycle(alloc, names.as_slice(), edges.as_slice())?)),
    }
}

/// The units in the order of these ranks.
fn in_order(alloc: Global, names: &[Text], ranks: List<u32>) -> Result<UnitOrder, NoMemory>
    requires counted { length ranks ≡ length names.now }
    requires few { length names.now < 2 ^ 32 }
    ensures { IfOk result (λ order. IsPlacing names.now ranks order) }
{
    let all = sorted(alloc, names, ranks.as_slice())?;
    let units = units_of(alloc, all.as_slice())?;
    Ok(assembled(units, ranks))
}

/// The order of these units with these ranks.
fn assembled(units: List<u32>, ranks: List<u32>) -> UnitOrder
    requires { length ranks ≡ length units }
    ensures { result ≡ placed_units ranks units }
{
    UnitOrder { units, ranks }
}

/// The rank of a unit: the length of the longest chain of providers below it. It takes no memory.
pub fn rank(order: &UnitOrder, unit: u32) -> u32
    requires { unit < length order.now }
    ensures { All (λ placed. placed.unit ≡ unit → placed.rank ≡ result) order.now }
{
    order.ranks.as_slice()[unit as usize]
}

/// The unit at a place of the order. It takes no memory.
pub fn at(order: &UnitOrder, place: u32) -> u32
    requires { place < length order.now }
    ensures { slice_get (map (λ placed. placed.unit) order.now) place ≡ Some result }
{
    order.units.as_slice()[place as usize]
}
