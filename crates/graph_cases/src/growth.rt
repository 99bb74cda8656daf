//! Steps with many entries, whose time shows how the calls grow.

use crate::entries::read_value;
use crate::scene::GraphScene;
use case_files::number_of;
use cm_base::{List, NoMemory, Text};
use sml_modules::{NamedEnv, NamedValue};

impl GraphScene {
    /// A name of a letter and a number.
    fn numbered(&self, letter: &str, number: u32) -> Result<Text, NoMemory> {
        let name = format!(in self.alloc; "{letter}{number}")?;
        Text::from_bytes(self.alloc, name.as_bytes())
    }

    /// An environment of so many values, made at once.
    fn many_values(&mut self, count: u32) -> Result<Option<Vec<u8>>, NoMemory> {
        let mut values = List::new(self.alloc);
        for number in 0..count {
            let name = self.numbered("x", number)?;
            if let Some(entry) = read_value(self.alloc, b"v:i")? {
                values.add(NamedValue { name, entry })?;
            }
        }
        let structures = List::new(self.alloc);
        let id = self
            .graph
            .make_env(&structures, List::new(self.alloc), values)?;
        self.keep_env(id)
    }

    /// An environment of so many structures, made at once: each is the empty one.
    fn many_structures(&mut self, count: u32) -> Result<Option<Vec<u8>>, NoMemory> {
        let mut structures = List::new(self.alloc);
        let env = self.graph.empty_env()?;
        for number in 0..count {
            let name = self.numbered("S", number)?;
            structures.add(NamedEnv { name, env })?;
        }
        let types = List::new(self.alloc);
        let id = self
            .graph
            .make_env(&structures, types, List::new(self.alloc))?;
        self.keep_env(id)
    }

    /// An environment of so many structures, set one after the other.
    fn one_by_one(&mut self, count: u32) -> Result<Option<Vec<u8>>, NoMemory> {
        let entry = self.graph.empty_env()?;
        let mut env = self.graph.empty_env()?;
        for number in 0..count {
            let name = self.numbered("S", number)?;
            if self.graph.has_env(env) && self.graph.has_env(entry) {
                env = self.graph.with_structure(env, &name, entry)?;
            }
        }
        self.keep_env(env)
    }

    /// What is answered to a step of this kind.
    pub fn growth_step(
        &mut self,
        step: &[u8],
        words: &[Text],
    ) -> Result<Option<Vec<u8>>, NoMemory> {
        let [count] = words else {
            return Ok(None);
        };
        let Some(count) = number_of(count.as_bytes()) else {
            return Ok(None);
        };
        match step {
            b"many-values" => self.many_values(count),
            b"many-structures" => self.many_structures(count),
            b"one-by-one" => self.one_by_one(count),
            _ => Ok(None),
        }
    }
}
