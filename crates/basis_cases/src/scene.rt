//! A graph, and the initial basis that was made in it last.

use case_files::{Part, push_parts};
use case_texts::{Scene, line};
use cm_base::{List, NoMemory, Options, Text};
use entry_printing::{type_line, value_line};
use initial_basis::basis;
use sml_modules::{EnvGraph, EnvId, TopId};
use std::alloc::Global;

/// A graph, with the top of the basis and its environment.
#[derive(Drop)]
pub struct BasisScene {
    alloc: Global,
    graph: EnvGraph,
    top: Option<TopId>,
    env: Option<EnvId>,
}

/// Texts as a line, with a blank between two.
fn names_line(alloc: Global, texts: &List<Text>) -> Result<Option<Vec<u8>>, NoMemory> {
    let mut out = Vec::new(alloc);
    push_parts(alloc, &mut out, &[Part::Text(b"names")])?;
    for text in texts.as_slice() {
        push_parts(
            alloc,
            &mut out,
            &[Part::Text(b" "), Part::Text(text.as_bytes())],
        )?;
    }
    push_parts(alloc, &mut out, &[Part::Text(b"\n")])?;
    Ok(Some(out))
}

impl BasisScene {
    /// A graph in which no basis was made yet.
    pub fn new(alloc: Global, graph: EnvGraph) -> BasisScene {
        BasisScene {
            alloc,
            graph,
            top: None,
            env: None,
        }
    }

    /// Makes the basis, and answers how many type names the graph has made: the basis makes none.
    fn make(&mut self, nobasis: bool) -> Result<Option<Vec<u8>>, NoMemory> {
        let options = Options {
            nobasis,
            opaque: false,
        };
        let top = basis(self.alloc, &mut self.graph, options)?;
        let env = self.graph.env_of(top)?;
        self.top = Some(top);
        self.env = Some(env);
        let mut out = Vec::new(self.alloc);
        let made = self.graph.made();
        push_parts(
            self.alloc,
            &mut out,
            &[Part::Text(b"made "), Part::Number(made), Part::Text(b"\n")],
        )?;
        Ok(Some(out))
    }

    /// The names of a table of an environment.
    fn names(&self, table: &[u8], env: EnvId) -> Result<Option<Vec<u8>>, NoMemory> {
        if !self.graph.has_env(env) {
            return Ok(None);
        }
        let names = match table {
            b"structures" => self.graph.names_structure(env)?,
            b"types" => self.graph.names_type(env)?,
            b"values" => self.graph.names_value(env)?,
            _ => return Ok(None),
        };
        names_line(self.alloc, &names)
    }

    /// The names of a table of the top.
    fn top_names(&self, table: &[u8]) -> Result<Option<Vec<u8>>, NoMemory> {
        let Some(top) = self.top else {
            return Ok(None);
        };
        if !self.graph.has_top(top) {
            return Ok(None);
        }
        let names = match table {
            b"signatures" => self.graph.names_signature(top)?,
            b"functors" => self.graph.names_functor(top)?,
            b"funsigs" => self.graph.names_funsig(top)?,
            _ => return Ok(None),
        };
        names_line(self.alloc, &names)
    }

    /// The value of a name.
    fn value(&self, env: EnvId, name: &Text) -> Result<Option<Vec<u8>>, NoMemory> {
        if !self.graph.has_env(env) {
            return Ok(None);
        }
        match self.graph.find_value(env, name)? {
            Some(value) => Ok(Some(value_line(self.alloc, &value)?)),
            None => Ok(Some(line(self.alloc, b"none")?)),
        }
    }

    /// The type structure of a name.
    fn type_str(&self, env: EnvId, name: &Text) -> Result<Option<Vec<u8>>, NoMemory> {
        if !self.graph.has_env(env) {
            return Ok(None);
        }
        match self.graph.find_type(env, name)? {
            Some(entry) => Ok(Some(type_line(self.alloc, &entry)?)),
            None => Ok(Some(line(self.alloc, b"none")?)),
        }
    }

    /// What is answered of a structure.
    fn of_structure(
        &self,
        env: EnvId,
        step: &[u8],
        rest: &[Text],
    ) -> Result<Option<Vec<u8>>, NoMemory> {
        match (step, rest) {
            (b"value", [name]) => self.value(env, name),
            (_, []) => self.names(step, env),
            _ => Ok(None),
        }
    }

    /// What is answered of the structure of a name.
    fn of_named(
        &self,
        env: EnvId,
        step: &[u8],
        structure: &Text,
        rest: &[Text],
    ) -> Result<Option<Vec<u8>>, NoMemory> {
        if !self.graph.has_env(env) {
            return Ok(None);
        }
        match self.graph.find_structure(env, structure)? {
            Some(inner) => self.of_structure(inner, step, rest),
            None => Ok(Some(line(self.alloc, b"none")?)),
        }
    }

    /// What is answered of the basis.
    fn of_basis(&self, step: &[u8], words: &[Text]) -> Result<Option<Vec<u8>>, NoMemory> {
        let Some(env) = self.env else {
            return Ok(None);
        };
        match (step, words) {
            (b"signatures", []) => self.top_names(step),
            (b"functors", []) => self.top_names(step),
            (b"funsigs", []) => self.top_names(step),
            (_, []) => self.names(step, env),
            (b"value", [name]) => self.value(env, name),
            (b"type", [name]) => self.type_str(env, name),
            (_, [structure, rest @ ..]) => self.of_named(env, step, structure, rest),
        }
    }
}

impl Scene for BasisScene {
    fn answer(
        &mut self,
        _alloc: Global,
        step: &[u8],
        words: &[Text],
    ) -> Result<Option<Vec<u8>>, NoMemory> {
        match (step, words) {
            (b"basis", []) => self.make(false),
            (b"basis", [word]) if word.as_bytes() == b"nobasis".as_slice() => self.make(true),
            _ => self.of_basis(step, words),
        }
    }
}
