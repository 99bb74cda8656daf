//! The nodes of a type in the order of the walk.

ghost use Rattle.std.specs.Prelude.{◌≡◌, ℕ, None, IfOk, OnOk, length};
ghost use Rattle.semantic_objects.specs.Nodes.{AreNodes, AreTree};
ghost use Rattle.environment_walks.specs.declared.steps.Step.TheVariants as step;
ghost use Rattle.name_walks.specs.Visits.{TakesStep, FollowsWalk, IsVisited};

use cm_base::{List, NoMemory};
use environment_walks::{Images, Step, enter_all};
use semantic_objects::TypeNode;
use std::alloc::Global;

/// A node is met that isn't done: it comes before its parts.
fn open_node(
    nodes: &[TypeNode],
    at: usize,
    done: &Images,
    visits: &mut List<usize>,
    steps: &mut List<Step>,
) -> Result<(), NoMemory>
    requires { AreNodes nodes.now }
    ensures { OnOk result (TakesStep nodes.now (step.Enter at) visits.old visits.new
        done.now done.now steps.old steps.new) }
{
    visits.add(at)?;
    steps.add(Step::Leave(at))?;
    match nodes.get(at) {
        Some(node) => match node {
            TypeNode::Bound(_) => Ok(()),
            TypeNode::Free(_) => Ok(()),
            TypeNode::Made(_, places) => enter_all(places, steps),
        },
        None => Err(NoMemory),
    }
}

/// One step.
fn take_node(
    nodes: &[TypeNode],
    step: Step,
    done: &mut Images,
    visits: &mut List<usize>,
    steps: &mut List<Step>,
) -> Result<(), NoMemory>
    requires { AreNodes nodes.now }
    ensures { OnOk result (TakesStep nodes.now step visits.old visits.new
        done.old done.new steps.old steps.new) }
{
    match step {
        Step::Enter(at) => match done.of(at) {
            Some(_) => Ok(()),
            None => open_node(nodes, at, done, visits, steps),
        },
        Step::Leave(at) => done.set(at, at),
    }
}

/// The nodes below a node by their places, in the order in which a walk meets them first.
fn visits_from(alloc: Global, nodes: &[TypeNode], at: usize) -> Result<List<usize>, NoMemory>
    requires { AreNodes nodes.now }
    ensures { IfOk result (FollowsWalk nodes.now at) }
{
    let mut done = Images::new(alloc);
    let mut visits = List::new(alloc);
    let mut steps = List::new(alloc);
    steps.add(Step::Enter(at))?;
    for _ in 0..u64::MAX {
        match steps.pop() {
            Some(step) => take_node(nodes, step, &mut done, &mut visits, &mut steps)?,
            None => return Ok(visits),
        }
    }
    Err(NoMemory)
}

/// The nodes of a tree by their places, in the order in which a walk meets them first: a node before its parts, and
/// parts from left to right. What isn't done after 2^64 - 1 steps is refused as want of memory is.
pub fn visits(alloc: Global, nodes: &[TypeNode]) -> Result<List<usize>, NoMemory>
    requires { AreTree nodes.now }
    ensures { IfOk result (IsVisited nodes.now) }
{
    visits_from(alloc, nodes, nodes.len() - 1)
}
