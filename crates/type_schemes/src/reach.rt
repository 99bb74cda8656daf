//! What stands below some ids: the variables for which nothing stands, by first occurrence, and the nodes, each once
//! and behind its parts.

ghost use Rattle.std.specs.Prelude.{◌≡◌, ◌++◌, ◌<◌, [], ℕ, length, Bool, true, IfOk, OnOk};
ghost use Rattle.unification.specs.Closing.{found_in, found_in_all, noticed};
ghost use Rattle.type_nodes.specs.Tables.{Table, Has, IsEnd, whole, whole_all};
ghost use Rattle.type_schemes.specs.Schemes.{HaveAll};
ghost use Rattle.type_schemes.specs.Heads.{IsHeadOf};
ghost use Rattle.type_schemes.specs.Numbering.{keeps, is_reached};
ghost use Rattle.type_schemes.specs.Reaching.{StepHas, IsReached, IsPassed, AllPassed, MayBePlaceOf, StepTaken, IsOpened, entered, found};

use crate::heads::Heads;
use crate::kept::Kept;
use crate::places::Places;
use cm_base::{List, NoMemory};
use semantic_objects::TyId;
use std::alloc::Global;
use type_nodes::TypeBindings;

/// A step of the walk: an id is looked at, or the parts of a node are done.
#[derive(Clone, Copy, Debug, PartialEq, Eq)]
pub(crate) enum Step {
    Enter(TyId),
    Leave(usize),
}

/// The variables and the nodes that were reached, in the order in which they were done, with the place of each, and what
/// the variables come to that stand for them.
#[derive(Drop)]
pub(crate) struct Reached {
    pub(crate) ids: List<TyId>,
    pub(crate) nodes: Places,
    pub(crate) variables: Places,
    heads: Heads,
}

impl Reached {
    /// Nothing was reached.
    pub(crate) fn new(alloc: Global) -> Reached
        ensures reached { (t : Table) → IsReached t result }
        ensures none { result.ids ≡ [] }
    {
        Reached {
            ids: List::new(alloc),
            nodes: Places::new(alloc),
            variables: Places::new(alloc),
            heads: Heads::new(alloc),
        }
    }

    /// The variables that were reached, to be kept.
    pub(crate) fn into_kept(self) -> Kept
        ensures { (v : ℕ) → keeps result v ≡ is_reached self v }
    {
        Kept {
            older: 0,
            variables: self.variables,
        }
    }

    /// A variable was met.
    fn add_variable(&mut self, table: &TypeBindings, number: usize) -> Result<(), NoMemory>
        requires has { number < length table.now.births }
        requires end { IsEnd table.now (TyId.Variable number) }
        requires reached { IsReached table.now self.old }
        ensures reached { OnOk result (IsReached table.now self.new) }
        ensures found { OnOk result ((kept : ℕ → Bool) → found kept self.new ≡ noticed (kept number) number (found kept self.old)) }
    {
        match self.variables.of(number) {
            Some(_) => Ok(()),
            None => {
                let place = self.ids.len();
                self.ids.add(TyId::Variable(number))?;
                Ok(self.variables.set(number, place)?)
            }
        }
    }

    /// The parts of a node are done.
    fn add_node(&mut self, table: &TypeBindings, at: usize) -> Result<(), NoMemory>
        requires has { at < length table.now.nodes }
        requires passed { IsPassed table.now self.old (TyId.Made at) }
        requires reached { IsReached table.now self.old }
        ensures reached { OnOk result (IsReached table.now self.new) }
        ensures found { OnOk result ((kept : ℕ → Bool) → found kept self.new ≡ found kept self.old) }
    {
        let place = self.ids.len();
        self.ids.add(TyId::Made(at))?;
        Ok(self.nodes.set(at, place)?)
    }

    /// What an id comes to. Each step between variables is gone once.
    fn head(&mut self, table: &TypeBindings, id: TyId) -> Result<TyId, NoMemory>
        requires has { Has table.now id }
        requires reached { IsReached table.now self.old }
        ensures head { IfOk result (IsHeadOf table.now id) }
        ensures reached { OnOk result (IsReached table.now self.new) }
        ensures found { OnOk result ((kept : ℕ → Bool) → found kept self.new ≡ found kept self.old) }
    {
        Ok(self.heads.find(table, id)?)
    }

    /// The place of what an id comes to, if that was reached.
    pub(crate) fn place_of(&self, table: &TypeBindings, id: TyId) -> Option<usize>
        requires has { Has table.now id }
        requires reached { IsReached table.now self.now }
        ensures { MayBePlaceOf table.now self.now id result }
    {
        match self.heads.head_of(table, id) {
            TyId::Variable(number) => self.variables.of(number),
            TyId::Made(at) => self.nodes.of(at),
        }
    }

    /// Whether all these ids were reached.
    fn has_all(&self, table: &TypeBindings, ids: &List<TyId>) -> bool
        requires has { HaveAll table.now ids.now }
        requires reached { IsReached table.now self.now }
        ensures { result ≡ true → AllPassed table.now self.now ids.now }
    {
        for id in ids.as_slice() {
            if self.place_of(table, *id).is_none() {
                return false;
            }
        }
        true
    }
}

/// The parts of a node are still to be looked at, the first one next.
fn enter_all(parts: &List<TyId>, steps: &mut List<Step>) -> Result<(), NoMemory>
    ensures { OnOk result (steps.new ≡ steps.old ++ entered parts.now) }
{
    let mut rest = parts.as_slice();
    while let Some((last, before)) = rest.split_last() {
        steps.add(Step::Enter(*last))?;
        rest = before;
    }
    Ok(())
}

/// A node is met whose parts are still to be looked at.
fn open(table: &TypeBindings, at: usize, steps: &mut List<Step>) -> Result<(), NoMemory>
    requires { at < length table.now.nodes }
    ensures { OnOk result (IsOpened table.now at steps.old steps.new) }
{
    steps.add(Step::Leave(at))?;
    Ok(enter_all(&table.node(at).parts, steps)?)
}

/// Looks at what an id comes to.
fn enter_head(
    table: &TypeBindings,
    id: TyId,
    head: TyId,
    reached: &mut Reached,
    steps: &mut List<Step>,
) -> Result<(), NoMemory>
    requires head { IsHeadOf table.now id head }
    requires reached { IsReached table.now reached.old }
    ensures { OnOk result (StepTaken table.now (Step.Enter id) reached.old reached.new steps.old steps.new) }
{
    table.is_kept();
    match head {
        TyId::Variable(number) => Ok(reached.add_variable(table, number)?),
        TyId::Made(at) => match reached.nodes.of(at) {
            Some(_) => Ok(()),
            None => Ok(open(table, at, steps)?),
        },
    }
}

/// Looks at an id.
fn enter(
    table: &TypeBindings,
    id: TyId,
    reached: &mut Reached,
    steps: &mut List<Step>,
) -> Result<(), NoMemory>
    requires has { Has table.now id }
    requires reached { IsReached table.now reached.old }
    ensures { OnOk result (StepTaken table.now (Step.Enter id) reached.old reached.new steps.old steps.new) }
{
    let head = reached.head(table, id)?;
    Ok(enter_head(table, id, head, reached, steps)?)
}

/// The parts of a node are done.
fn leave(table: &TypeBindings, at: usize, reached: &mut Reached) -> Result<(), NoMemory>
    requires has { at < length table.now.nodes }
    requires reached { IsReached table.now reached.old }
    ensures reached { OnOk result (IsReached table.now reached.new) }
    ensures found { OnOk result ((kept : ℕ → Bool) → found kept reached.new ≡ found kept reached.old) }
{
    table.is_kept();
    if reached.has_all(table, &table.node(at).parts) {
        Ok(reached.add_node(table, at)?)
    } else {
        Err(NoMemory)
    }
}

/// One step.
fn take(
    table: &TypeBindings,
    step: Step,
    reached: &mut Reached,
    steps: &mut List<Step>,
) -> Result<(), NoMemory>
    requires has { StepHas table.now step }
    requires reached { IsReached table.now reached.old }
    ensures { OnOk result (StepTaken table.now step reached.old reached.new steps.old steps.new) }
{
    match step {
        Step::Enter(id) => Ok(enter(table, id, reached, steps)?),
        Step::Leave(at) => Ok(leave(table, at, reached)?),
    }
}

/// Reaches what stands below one id. Each node is gone through once.
pub(crate) fn reach_one(
    table: &TypeBindings,
    alloc: Global,
    id: TyId,
    reached: &mut Reached,
) -> Result<(), NoMemory>
    requires has { Has table.now id }
    requires reached { IsReached table.now reached.old }
    ensures reached { OnOk result (IsReached table.now reached.new) }
    ensures found { OnOk result ((kept : ℕ → Bool)
        → found kept reached.new ≡ found_in kept (whole table.now id) (found kept reached.old)) }
{
    let mut steps = List::new(alloc);
    steps.add(Step::Enter(id))?;
    while let Some(step) = steps.pop() {
        take(table, step, reached, &mut steps)?;
    }
    Ok(())
}

/// What stands below some ids.
pub(crate) fn reach(table: &TypeBindings, alloc: Global, ids: &[TyId]) -> Result<Reached, NoMemory>
    requires { HaveAll table.now ids.now }
    ensures reached { IfOk result (IsReached table.now) }
    ensures found { IfOk result (λ reached. (kept : ℕ → Bool)
        → found kept reached ≡ found_in_all kept (whole_all table.now ids.now) []) }
{
    let mut reached = Reached::new(alloc);
    for id in ids {
        reach_one(table, alloc, *id, &mut reached)?;
    }
    Ok(reached)
}
