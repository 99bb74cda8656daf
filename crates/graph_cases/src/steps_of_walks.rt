//! Steps that walk whole environments, and steps that make deep and shared ones.

use crate::entries::{read_function, read_value};
use crate::printed_types::name_letter;
use crate::read_types::name_of;
use crate::scene::{GraphScene, env_of, top_of};
use canonical_walks::canon;
use case_files::{Part, number_of, push_parts};
use cm_base::{List, NoMemory, Text};
use environment_walks::{Realisation, Replace, realise};
use name_walks::names_of;
use sml_modules::EnvId;
use std::alloc::Global;

/// The letter of a name, `=`, and the type function that is put for it.
fn read_replace(alloc: Global, word: &[u8]) -> Result<Option<Replace>, NoMemory> {
    let [letter, b'=', function @ ..] = word else {
        return Ok(None);
    };
    let Some(name) = name_of(alloc, *letter)? else {
        return Ok(None);
    };
    match read_function(alloc, function)? {
        Some(by) => Ok(Some(Replace { name, by })),
        None => Ok(None),
    }
}

/// The realisation of some words.
fn read_realisation(alloc: Global, words: &[Text]) -> Result<Option<Realisation>, NoMemory> {
    let mut list = List::new(alloc);
    for word in words {
        match read_replace(alloc, word.as_bytes())? {
            Some(replace) => list.add(replace)?,
            None => return Ok(None),
        }
    }
    Ok(Some(Realisation { list }))
}

impl GraphScene {
    /// An environment that is realised.
    fn realise(&mut self, env: &Text, words: &[Text]) -> Result<Option<Vec<u8>>, NoMemory> {
        let Some(by) = read_realisation(self.alloc, words)? else {
            return Ok(None);
        };
        let Some(env) = env_of(&self.graph, &self.envs, env) else {
            return Ok(None);
        };
        let id = realise(&mut self.graph, env, &by)?;
        self.number_of_env(id)
    }

    /// The letters of the type names that occur in an environment.
    fn names_of(&self, env: &Text) -> Result<Option<Vec<u8>>, NoMemory> {
        let Some(env) = env_of(&self.graph, &self.envs, env) else {
            return Ok(None);
        };
        let names = names_of(&self.graph, env)?;
        let mut out = Vec::new(self.alloc);
        push_parts(self.alloc, &mut out, &[Part::Text(b"names")])?;
        for name in names.as_slice() {
            let parts = [Part::Text(b" "), Part::Text(name_letter(name))];
            push_parts(self.alloc, &mut out, &parts)?;
        }
        push_parts(self.alloc, &mut out, &[Part::Text(b"\n")])?;
        Ok(Some(out))
    }

    /// The canonical form of a top.
    fn canon(&mut self, top: &Text) -> Result<Option<Vec<u8>>, NoMemory> {
        let Some(top) = top_of(&self.graph, &self.tops, top) else {
            return Ok(None);
        };
        let id = canon(&mut self.graph, top)?;
        self.keep_top(id)
    }

    /// An environment with one structure more, and the same one where an id is none of the graph.
    fn set(&mut self, env: EnvId, name: &[u8], entry: EnvId) -> Result<EnvId, NoMemory> {
        let name = Text::from_bytes(self.alloc, name)?;
        if self.graph.has_env(env) && self.graph.has_env(entry) {
            self.graph.with_structure(env, &name, entry)
        } else {
            Ok(env)
        }
    }

    /// An environment of so many levels, each of which holds the one below as its structures `A` and `B`.
    fn doubled(&mut self, count: u32) -> Result<Option<Vec<u8>>, NoMemory> {
        let empty = self.graph.empty_env()?;
        let Some(entry) = read_value(self.alloc, b"v:m")? else {
            return Ok(None);
        };
        let mut level = empty;
        if self.graph.has_env(empty) {
            let name = Text::from_bytes(self.alloc, b"x")?;
            level = self.graph.with_value(empty, &name, &entry)?;
        }
        for _ in 0..count {
            let one = self.set(empty, b"A", level)?;
            level = self.set(one, b"B", level)?;
        }
        self.keep_env(level)
    }

    /// An environment of one value, whose type is so many lists deep.
    fn deep(&mut self, count: u32) -> Result<Option<Vec<u8>>, NoMemory> {
        let mut letters = Vec::new(self.alloc);
        letters.extend_from_slice(b"v:m")?;
        for _ in 0..count {
            letters.push(b'l')?;
        }
        let Some(entry) = read_value(self.alloc, letters.as_slice())? else {
            return Ok(None);
        };
        let env = self.graph.empty_env()?;
        let name = Text::from_bytes(self.alloc, b"x")?;
        let id = self.graph.with_value(env, &name, &entry)?;
        self.keep_env(id)
    }

    /// What is answered to a step that walks an environment, or makes one for that.
    pub fn walk_step(&mut self, step: &[u8], words: &[Text]) -> Result<Option<Vec<u8>>, NoMemory> {
        match (step, words) {
            (b"realise", [env, words @ ..]) => self.realise(env, words),
            (b"names-of", [env]) => self.names_of(env),
            (b"canon", [top]) => self.canon(top),
            (b"doubled", [count]) => match number_of(count.as_bytes()) {
                Some(count) => self.doubled(count),
                None => Ok(None),
            },
            (b"deep", [count]) => match number_of(count.as_bytes()) {
                Some(count) => self.deep(count),
                None => Ok(None),
            },
            _ => Ok(None),
        }
    }
}
