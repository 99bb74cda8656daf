//! A graph, a scope over one of its environments, and the marks and environments by their numbers.

ghost use Rattle.std.specs.Prelude.{IfSome};
ghost use Rattle.sml_modules.specs.Graphs.{HasEnv};

use case_files::{Part, number_of, push_parts};
use case_texts::{Scene, line};
use cm_base::{List, NoMemory, Text};
use core_scopes::{Scope, ScopeMark};
use sml_modules::{EnvGraph, EnvId};
use std::alloc::Global;

/// A scope in which the unit's own values are numbers.
#[derive(Drop)]
pub struct ScopeScene {
    pub alloc: Global,
    pub graph: EnvGraph,
    pub scope: Scope<u32>,
    pub marks: List<ScopeMark>,
    pub envs: List<EnvId>,
}

/// The place that a word numbers.
fn place_of(word: &Text) -> Option<usize> {
    Some(number_of(word.as_bytes())? as usize)
}

/// The environment of a number, where it is one of the graph.
pub fn env_of(graph: &EnvGraph, envs: &List<EnvId>, word: &Text) -> Option<EnvId>
    ensures { IfSome result (HasEnv graph.now) }
{
    let id = *envs.get(place_of(word)?)?;
    if graph.has_env(id) { Some(id) } else { None }
}

/// The mark of a number.
pub fn mark_of(marks: &List<ScopeMark>, word: &Text) -> Option<ScopeMark> {
    Some(*marks.get(place_of(word)?)?)
}

/// A number as a line.
pub fn number_line(alloc: Global, number: u64) -> Result<Option<Vec<u8>>, NoMemory> {
    let mut out = Vec::new(alloc);
    push_parts(alloc, &mut out, &[Part::Number(number), Part::Text(b"\n")])?;
    Ok(Some(out))
}

/// The line of a step that answers nothing else.
pub fn ok_line(alloc: Global) -> Result<Option<Vec<u8>>, NoMemory> {
    Ok(Some(line(alloc, b"ok")?))
}

impl ScopeScene {
    /// A scope over an empty environment, which has the number 0.
    pub fn new(alloc: Global, graph: EnvGraph) -> Result<ScopeScene, NoMemory> {
        let mut graph = graph;
        let below = graph.empty_env()?;
        let mut envs = List::new(alloc);
        envs.add(below)?;
        Ok(ScopeScene {
            alloc,
            graph,
            scope: Scope::new(alloc, below),
            marks: List::new(alloc),
            envs,
        })
    }
}

impl Scene for ScopeScene {
    fn answer(
        &mut self,
        _alloc: Global,
        step: &[u8],
        words: &[Text],
    ) -> Result<Option<Vec<u8>>, NoMemory> {
        if let Some(out) = self.finding_step(step, words)? {
            return Ok(Some(out));
        }
        if let Some(out) = self.binding_step(step, words)? {
            return Ok(Some(out));
        }
        if let Some(out) = self.packing_step(step, words)? {
            return Ok(Some(out));
        }
        self.growth_step(step, words)
    }
}
