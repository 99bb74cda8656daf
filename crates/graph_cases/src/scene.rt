//! A graph and the ids that its calls gave, by the numbers in which they came.

ghost use Rattle.std.specs.Prelude.{IfSome};
ghost use Rattle.sml_modules.specs.Graphs.{HasEnv, HasSignature, HasFunctor, HasTop};

use case_files::{Part, number_of, push_parts};
use case_texts::Scene;
use cm_base::{List, NoMemory, Text};
use sml_modules::{EnvGraph, EnvId, FunId, SigId, TopId};
use std::alloc::Global;

/// A graph and its ids.
#[derive(Drop)]
pub struct GraphScene {
    pub alloc: Global,
    pub graph: EnvGraph,
    pub envs: List<EnvId>,
    pub sigs: List<SigId>,
    pub funs: List<FunId>,
    pub tops: List<TopId>,
}

/// The place that a word numbers.
fn place_of(word: &Text) -> Option<usize> {
    match number_of(word.as_bytes()) {
        Some(number) => Some(number as usize),
        None => None,
    }
}

/// The environment of a number, where it is one of the graph.
pub fn env_of(graph: &EnvGraph, envs: &List<EnvId>, word: &Text) -> Option<EnvId>
    ensures { IfSome result (HasEnv graph.now) }
{
    let id = *envs.get(place_of(word)?)?;
    if graph.has_env(id) { Some(id) } else { None }
}

/// The signature of a number.
pub fn sig_of(graph: &EnvGraph, sigs: &List<SigId>, word: &Text) -> Option<SigId>
    ensures { IfSome result (HasSignature graph.now) }
{
    let id = *sigs.get(place_of(word)?)?;
    if graph.has_signature(id) {
        Some(id)
    } else {
        None
    }
}

/// The functor of a number.
pub fn fun_of(graph: &EnvGraph, funs: &List<FunId>, word: &Text) -> Option<FunId>
    ensures { IfSome result (HasFunctor graph.now) }
{
    let id = *funs.get(place_of(word)?)?;
    if graph.has_functor(id) {
        Some(id)
    } else {
        None
    }
}

/// The top of a number.
pub fn top_of(graph: &EnvGraph, tops: &List<TopId>, word: &Text) -> Option<TopId>
    ensures { IfSome result (HasTop graph.now) }
{
    let id = *tops.get(place_of(word)?)?;
    if graph.has_top(id) { Some(id) } else { None }
}

/// A number as a line.
pub fn number_line(alloc: Global, number: u64) -> Result<Option<Vec<u8>>, NoMemory> {
    let mut out = Vec::new(alloc);
    push_parts(alloc, &mut out, &[Part::Number(number), Part::Text(b"\n")])?;
    Ok(Some(out))
}

/// Texts as a line, with a blank between two.
pub fn texts_line(alloc: Global, texts: &List<Text>) -> Result<Option<Vec<u8>>, NoMemory> {
    let mut out = Vec::new(alloc);
    push_parts(alloc, &mut out, &[Part::Text(b"names")])?;
    for text in texts.as_slice() {
        push_parts(
            alloc,
            &mut out,
            &[Part::Text(b" "), Part::Text(text.as_bytes())],
        )?;
    }
    push_parts(alloc, &mut out, &[Part::Text(b"\n")])?;
    Ok(Some(out))
}

impl GraphScene {
    /// A graph without ids.
    pub fn new(alloc: Global, graph: EnvGraph) -> GraphScene {
        GraphScene {
            alloc,
            graph,
            envs: List::new(alloc),
            sigs: List::new(alloc),
            funs: List::new(alloc),
            tops: List::new(alloc),
        }
    }

    /// Keeps an environment, and answers its number.
    pub fn keep_env(&mut self, id: EnvId) -> Result<Option<Vec<u8>>, NoMemory> {
        let number = self.envs.len() as u64;
        self.envs.add(id)?;
        number_line(self.alloc, number)
    }

    /// Keeps a signature, and answers its number.
    pub fn keep_sig(&mut self, id: SigId) -> Result<Option<Vec<u8>>, NoMemory> {
        let number = self.sigs.len() as u64;
        self.sigs.add(id)?;
        number_line(self.alloc, number)
    }

    /// Keeps a functor, and answers its number.
    pub fn keep_fun(&mut self, id: FunId) -> Result<Option<Vec<u8>>, NoMemory> {
        let number = self.funs.len() as u64;
        self.funs.add(id)?;
        number_line(self.alloc, number)
    }

    /// Keeps a top, and answers its number.
    pub fn keep_top(&mut self, id: TopId) -> Result<Option<Vec<u8>>, NoMemory> {
        let number = self.tops.len() as u64;
        self.tops.add(id)?;
        number_line(self.alloc, number)
    }

    /// The number of an environment: that under which it was kept first, or a new one.
    pub fn number_of_env(&mut self, id: EnvId) -> Result<Option<Vec<u8>>, NoMemory> {
        match self.envs.as_slice().iter().position(|known| *known == id) {
            Some(number) => number_line(self.alloc, number as u64),
            None => self.keep_env(id),
        }
    }

    /// The number of a signature.
    pub fn number_of_sig(&mut self, id: SigId) -> Result<Option<Vec<u8>>, NoMemory> {
        match self.sigs.as_slice().iter().position(|known| *known == id) {
            Some(number) => number_line(self.alloc, number as u64),
            None => self.keep_sig(id),
        }
    }

    /// The number of a functor.
    pub fn number_of_fun(&mut self, id: FunId) -> Result<Option<Vec<u8>>, NoMemory> {
        match self.funs.as_slice().iter().position(|known| *known == id) {
            Some(number) => number_line(self.alloc, number as u64),
            None => self.keep_fun(id),
        }
    }
}

impl Scene for GraphScene {
    fn answer(
        &mut self,
        _alloc: Global,
        step: &[u8],
        words: &[Text],
    ) -> Result<Option<Vec<u8>>, NoMemory> {
        if let Some(out) = self.names_step(step, words)? {
            return Ok(Some(out));
        }
        if let Some(out) = self.making_step(step, words)? {
            return Ok(Some(out));
        }
        if let Some(out) = self.finding_step(step, words)? {
            return Ok(Some(out));
        }
        if let Some(out) = self.top_step(step, words)? {
            return Ok(Some(out));
        }
        if let Some(out) = self.walk_step(step, words)? {
            return Ok(Some(out));
        }
        if let Some(out) = self.interface_step(step, words)? {
            return Ok(Some(out));
        }
        self.growth_step(step, words)
    }
}
