//! Ranks by a search along edges that goes to each unit once and keeps its way on a stack of its own.

ghost use Rattle.std.specs.Prelude.{◌≡◌, ◌≢◌, ℕ, false, ◌+◌, ◌^◌, ◌<◌, ◌≤◌, max, List, [], ◌∷◌, ◌++◌, length, slice_index_or, slice_set, OnOk, All, Contains, IfOk, MatchOption, MatchBool};
ghost use Rattle.dependency_graph.specs.Order.{providers, IsRank, AllAreUnits};
ghost use Rattle.dependency_graph.specs.Cycle.{HasCycle};
ghost use Rattle.dependency_graph.specs.Search.{IsPart, AreNoted, AreRanks, HasNoneOpen, IsVisiting, KeepsMet, StepLeaves, Steps, VisitLeaves, first_frame, is_new, mark_of, steps_left};

use cm_base::{List, NoMemory};
use std::alloc::Global;

/// How far the search has come with a unit.
#[derive(Clone, Copy)]
pub(crate) enum Mark {
    /// It hasn't come to it.
    New,
    /// It is below it.
    Open,
    /// It has its rank.
    Done,
}

/// A unit on the way, the place of the next of its providers, and its longest chain so far.
#[derive(Drop)]
pub(crate) struct Frame {
    pub unit: u32,
    pub next: usize,
    pub rank: u32,
}

/// What is to be done next at the top of the way.
#[derive(Drop)]
pub(crate) enum Step {
    /// All providers are done, and this is the rank.
    Finish(u32),
    /// This provider is new.
    Enter(Frame, u32),
    /// This provider is on the way: a cycle.
    Close(u32),
}

/// The providers of a unit.
pub(crate) fn providers_of(edges: &[List<u32>], unit: u32) -> &[u32]
    requires { unit < length edges.now }
    ensures { result.now ≡ providers edges.now unit }
{
    edges[unit as usize].as_slice()
}

/// The longer of a chain and the one through a provider that has its rank.
fn longer_chain(ranks: &[u32], provider: u32, chain: u32) -> Result<u32, NoMemory>
    requires { provider < length ranks.now }
    ensures { IfOk result (λ longer. longer ≡ max chain (slice_index_or ranks.now provider 0 + 1)) }
{
    let through = ranks[provider as usize].checked_add(1).ok_or(NoMemory)?;
    Ok(chain.max(through))
}

/// Goes on with a unit's providers up to one that isn't done.
fn advance(
    edges: &[List<u32>],
    marks: &[Mark],
    ranks: &[u32],
    frame: Frame,
) -> Result<Step, NoMemory>
    requires units { AllAreUnits edges.now }
    requires noted { AreNoted edges.now marks.now ranks.now }
    requires part { IsPart edges.now frame }
    ensures { IfOk result (λ step. Steps edges.now marks.now frame.unit step) }
{
    let unit = frame.unit;
    let providers = providers_of(edges, unit);
    let mut rank = frame.rank;
    for next in frame.next..providers.len() {
        let provider = providers[next];
        match marks[provider as usize] {
            Mark::New => return Ok(Step::Enter(Frame { unit, next, rank }, provider)),
            Mark::Open => return Ok(Step::Close(provider)),
            Mark::Done => rank = longer_chain(ranks, provider, rank)?,
        }
    }
    Ok(Step::Finish(rank))
}

/// Notes the rank of the unit that was on top of the way.
fn finish(marks: &mut [Mark], ranks: &mut [u32], unit: u32, rank: u32)
    requires marked { unit < length marks.old }
    requires ranked { unit < length ranks.old }
    ensures marks { marks.new ≡ slice_set marks.old unit Mark.Done }
    ensures ranks { ranks.new ≡ slice_set ranks.old unit rank }
{
    marks[unit as usize] = Mark::Done;
    ranks[unit as usize] = rank;
}

/// Puts the top frame back, and a new one for its provider above it.
fn enter(
    marks: &mut [Mark],
    stack: &mut Vec<Frame>,
    frame: Frame,
    provider: u32,
) -> Result<(), NoMemory>
    requires { provider < length marks.old }
    ensures marks { marks.new ≡ slice_set marks.old provider Mark.Open }
    ensures stack { OnOk result (stack.new.items ≡ (stack.old.items ++ frame ∷ []) ++ first_frame provider ∷ []) }
{
    marks[provider as usize] = Mark::Open;
    stack.push(frame)?;
    stack.push(Frame {
        unit: provider,
        next: 0,
        rank: 0,
    })?;
    Ok(())
}

/// One step of the search from its top frame: true where a cycle is closed.
fn take_step(
    edges: &[List<u32>],
    marks: &mut [Mark],
    ranks: &mut [u32],
    stack: &mut Vec<Frame>,
    frame: Frame,
) -> Result<bool, NoMemory>
    requires units { AllAreUnits edges.now }
    requires visiting { IsVisiting edges.now marks.old ranks.old (stack.old.items ++ frame ∷ []) }
    ensures step { IfOk result (λ closed. StepLeaves edges.now marks.new ranks.new stack.new.items closed) }
    ensures keeps { KeepsMet marks.old marks.new }
    ensures less { OnOk result (steps_left marks.new stack.new.items ≤ steps_left marks.old stack.old.items) }
{
    let unit = frame.unit;
    match advance(edges, marks, ranks, frame)? {
        Step::Finish(rank) => {
            finish(marks, ranks, unit, rank);
            Ok(false)
        }
        Step::Enter(frame, provider) => {
            enter(marks, stack, frame, provider)?;
            Ok(false)
        }
        Step::Close(_) => Ok(true),
    }
}

/// Searches all that is below a unit, unless it is done: true where there is a cycle.
fn visit(
    alloc: Global,
    edges: &[List<u32>],
    marks: &mut [Mark],
    ranks: &mut [u32],
    unit: u32,
) -> Result<bool, NoMemory>
    requires units { AllAreUnits edges.now }
    requires noted { AreNoted edges.now marks.old ranks.old }
    requires none { HasNoneOpen marks.old }
    requires known { unit < length edges.now }
    ensures found { IfOk result (λ closed. VisitLeaves edges.now marks.new ranks.new closed) }
    ensures keeps { KeepsMet marks.old marks.new }
    ensures met { is_new (mark_of marks.new unit) ≡ false }
{
    match marks[unit as usize] {
        Mark::New => {}
        Mark::Open | Mark::Done => return Ok(false),
    }
    let mut stack: Vec<Frame> = Vec::new(alloc);
    marks[unit as usize] = Mark::Open;
    stack.push(Frame {
        unit,
        next: 0,
        rank: 0,
    })?;
    while let Some(frame) = stack.pop() {
        if take_step(edges, marks, ranks, &mut stack, frame)? {
            return Ok(true);
        }
    }
    Ok(false)
}

/// Searches all units: true where there is a cycle.
fn visit_all(
    alloc: Global,
    edges: &[List<u32>],
    marks: &mut [Mark],
    ranks: &mut [u32],
) -> Result<bool, NoMemory>
    requires units { AllAreUnits edges.now }
    requires few { length edges.now < 2 ^ 32 }
    requires noted { AreNoted edges.now marks.old ranks.old }
    requires none { HasNoneOpen marks.old }
    ensures { IfOk result (λ closed. MatchBool closed (HasCycle edges.now) (AreRanks edges.now ranks.new)) }
{
    for unit in 0..edges.len() {
        if visit(alloc, edges, marks, ranks, unit as u32)? {
            return Ok(true);
        }
    }
    Ok(false)
}

/// The rank of each unit, or `None` exactly where there is a cycle.
pub(crate) fn ranks_of(alloc: Global, edges: &[List<u32>]) -> Result<Option<List<u32>>, NoMemory>
    requires units { AllAreUnits edges.now }
    requires few { length edges.now < 2 ^ 32 }
    ensures { IfOk result (λ found. MatchOption found (HasCycle edges.now) (λ ranks. AreRanks edges.now ranks)) }
{
    let mut marks = vec![in alloc; Mark::New; edges.len()]?;
    let mut ranks = vec![in alloc; 0u32; edges.len()]?;
    if visit_all(alloc, edges, &mut marks, &mut ranks)? {
        return Ok(None);
    }
    Ok(Some(List::from_vec(ranks)))
}
