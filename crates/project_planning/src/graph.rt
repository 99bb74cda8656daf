//! The units of a project as a graph, and its order.

ghost use Rattle.std.specs.Prelude.{◌≡◌, ◌<◌, ◌^◌, IfOk, length};
ghost use Rattle.cm_base.specs.Calls.{Gives};
ghost use Rattle.cm_description.specs.WellFormed.{IsWellFormed};
ghost use Rattle.dependency_graph.specs.Order.{AllAreUnits, AllDiffer, IsOrder};
ghost use Rattle.project_planning.specs.Buildable.{AreProvided};
ghost use Rattle.project_planning.specs.Planning.{edges_of, in_order, providers_of, unit_names};

use cm_base::{Fault, List, NoMemory, Text};
use cm_description::{Project, Unit, Wanted};
use dependency_graph::{OrderFault, UnitOrder, cycle_diag, order};
use std::alloc::Global;

/// The names of units, by number.
fn unit_names(alloc: Global, project: &Project) -> Result<List<Text>, NoMemory>
    ensures { IfOk result (λ names. names ≡ unit_names project.now) }
{
    let mut names = List::new(alloc);
    for unit in project.units.as_slice() {
        names.add(unit.name.copy()?)?;
    }
    Ok(names)
}

/// The providers of what a unit imports.
fn providers_of(alloc: Global, imports: &[Wanted]) -> Result<List<u32>, NoMemory>
    ensures { IfOk result (λ providers. providers ≡ providers_of imports.now) }
{
    let mut providers = List::new(alloc);
    for wanted in imports {
        providers.add(wanted.provider)?;
    }
    Ok(providers)
}

/// The providers of each unit.
fn edges_of(alloc: Global, wanted: &[List<Wanted>]) -> Result<List<List<u32>>, NoMemory>
    ensures { IfOk result (λ edges. edges ≡ edges_of wanted.now) }
{
    let mut edges = List::new(alloc);
    for imports in wanted {
        edges.add(providers_of(alloc, imports.as_slice())?)?;
    }
    Ok(edges)
}

/// The units by rank and then by name, or the refusal of a cycle.
fn in_order(alloc: Global, names: &List<Text>, edges: &List<List<u32>>) -> Result<UnitOrder, Fault>
    requires lists { length edges.now ≡ length names.now }
    requires few { length names.now < 2 ^ 32 }
    requires units { AllAreUnits edges.now }
    requires apart { AllDiffer names.now }
    ensures gives { Gives result (in_order names.now edges.now) }
    ensures whole { IfOk result (IsOrder names.now edges.now) }
{
    match order(alloc, names, edges) {
        Ok(units) => Ok(units),
        Err(OrderFault::Cycle(cycle)) => Err(Fault::Diag(cycle_diag(alloc, names, &cycle)?)),
        Err(OrderFault::NoMemory) => Err(Fault::NoMemory),
    }
}

/// The order of a project's units with these imports, or the refusal of a cycle.
#[tactic(auto, using(crate::proofs::Graphs::units_differ, crate::proofs::Graphs::names_count, crate::proofs::Graphs::edges_count, crate::proofs::Graphs::edges_are_units, crate::proofs::Graphs::order_whole))]
pub(crate) fn order_of(
    alloc: Global,
    project: &Project,
    wanted: &List<List<Wanted>>,
) -> Result<UnitOrder, Fault>
    requires formed { IsWellFormed project.now }
    requires counted { length wanted.now ≡ length project.now.units }
    requires provided { AreProvided project.now wanted.now }
    requires few { length project.now.units < 2 ^ 32 }
    ensures gives { Gives result (in_order (unit_names project.now) (edges_of wanted.now)) }
    ensures whole { IfOk result (IsOrder (unit_names project.now) (edges_of wanted.now)) }
{
    let names = unit_names(alloc, project)?;
    let edges = edges_of(alloc, wanted.as_slice())?;
    in_order(alloc, &names, &edges)
}
