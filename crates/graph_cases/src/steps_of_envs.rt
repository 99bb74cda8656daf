//! Steps that make environments, and steps that look at them.

use crate::entries::{push_type_str, push_value, read_type_str, read_value};
use crate::scene::{GraphScene, env_of, texts_line};
use case_files::{Part, push_parts};
use case_texts::line;
use cm_base::{List, NoMemory, Text};
use sml_modules::{Facts, NamedType, NamedValue};

impl GraphScene {
    /// An environment with one structure more.
    fn with_structure(
        &mut self,
        env: &Text,
        name: &Text,
        entry: &Text,
    ) -> Result<Option<Vec<u8>>, NoMemory> {
        let Some(entry) = env_of(&self.graph, &self.envs, entry) else {
            return Ok(None);
        };
        let Some(env) = env_of(&self.graph, &self.envs, env) else {
            return Ok(None);
        };
        let id = self.graph.with_structure(env, name, entry)?;
        self.keep_env(id)
    }

    /// An environment with one type structure more.
    fn with_type(
        &mut self,
        env: &Text,
        name: &Text,
        entry: &Text,
    ) -> Result<Option<Vec<u8>>, NoMemory> {
        let Some(entry) = read_type_str(self.alloc, entry.as_bytes())? else {
            return Ok(None);
        };
        let Some(env) = env_of(&self.graph, &self.envs, env) else {
            return Ok(None);
        };
        let id = self.graph.with_type(env, name, &entry)?;
        self.keep_env(id)
    }

    /// An environment with one value more.
    fn with_value(
        &mut self,
        env: &Text,
        name: &Text,
        entry: &Text,
    ) -> Result<Option<Vec<u8>>, NoMemory> {
        let Some(entry) = read_value(self.alloc, entry.as_bytes())? else {
            return Ok(None);
        };
        let Some(env) = env_of(&self.graph, &self.envs, env) else {
            return Ok(None);
        };
        let id = self.graph.with_value(env, name, &entry)?;
        self.keep_env(id)
    }

    /// An environment with all entries of another one.
    fn with_all(&mut self, env: &Text, by: &Text) -> Result<Option<Vec<u8>>, NoMemory> {
        let Some(by) = env_of(&self.graph, &self.envs, by) else {
            return Ok(None);
        };
        let Some(env) = env_of(&self.graph, &self.envs, env) else {
            return Ok(None);
        };
        let id = self.graph.with_all(env, by)?;
        self.keep_env(id)
    }

    /// An environment of type structures at once: names and entries by turns.
    fn make_types(&mut self, words: &[Text]) -> Result<Option<Vec<u8>>, NoMemory> {
        let mut types = List::new(self.alloc);
        for pair in words.chunks(2) {
            if let [name, entry] = pair {
                let name = name.copy()?;
                match read_type_str(self.alloc, entry.as_bytes())? {
                    Some(entry) => types.add(NamedType { name, entry })?,
                    None => return Ok(None),
                }
            }
        }
        let structures = List::new(self.alloc);
        let id = self
            .graph
            .make_env(&structures, types, List::new(self.alloc))?;
        self.keep_env(id)
    }

    /// An environment of values at once: names and entries by turns.
    fn make_values(&mut self, words: &[Text]) -> Result<Option<Vec<u8>>, NoMemory> {
        let mut values = List::new(self.alloc);
        for pair in words.chunks(2) {
            if let [name, entry] = pair {
                let name = name.copy()?;
                match read_value(self.alloc, entry.as_bytes())? {
                    Some(entry) => values.add(NamedValue { name, entry })?,
                    None => return Ok(None),
                }
            }
        }
        let structures = List::new(self.alloc);
        let id = self
            .graph
            .make_env(&structures, List::new(self.alloc), values)?;
        self.keep_env(id)
    }

    /// What is answered to a step that makes an environment.
    pub fn making_step(
        &mut self,
        step: &[u8],
        words: &[Text],
    ) -> Result<Option<Vec<u8>>, NoMemory> {
        match (step, words) {
            (b"empty-env", []) => {
                let id = self.graph.empty_env()?;
                self.keep_env(id)
            }
            (b"with-structure", [env, name, entry]) => self.with_structure(env, name, entry),
            (b"with-type", [env, name, entry]) => self.with_type(env, name, entry),
            (b"with-value", [env, name, entry]) => self.with_value(env, name, entry),
            (b"with-all", [env, by]) => self.with_all(env, by),
            (b"make-types", words) => self.make_types(words),
            (b"make-values", words) => self.make_values(words),
            _ => Ok(None),
        }
    }

    /// The structure of a name.
    fn structure(&mut self, env: &Text, name: &Text) -> Result<Option<Vec<u8>>, NoMemory> {
        let Some(env) = env_of(&self.graph, &self.envs, env) else {
            return Ok(None);
        };
        match self.graph.find_structure(env, name)? {
            Some(id) => self.number_of_env(id),
            None => Ok(Some(line(self.alloc, b"none")?)),
        }
    }

    /// The type structure of a name.
    fn type_str(&self, env: &Text, name: &Text) -> Result<Option<Vec<u8>>, NoMemory> {
        let Some(env) = env_of(&self.graph, &self.envs, env) else {
            return Ok(None);
        };
        let Some(entry) = self.graph.find_type(env, name)? else {
            return Ok(Some(line(self.alloc, b"none")?));
        };
        let mut out = Vec::new(self.alloc);
        push_type_str(self.alloc, &mut out, &entry)?;
        push_parts(self.alloc, &mut out, &[Part::Text(b"\n")])?;
        Ok(Some(out))
    }

    /// The value of a name.
    fn value(&self, env: &Text, name: &Text) -> Result<Option<Vec<u8>>, NoMemory> {
        let Some(env) = env_of(&self.graph, &self.envs, env) else {
            return Ok(None);
        };
        let Some(entry) = self.graph.find_value(env, name)? else {
            return Ok(Some(line(self.alloc, b"none")?));
        };
        let mut out = Vec::new(self.alloc);
        push_value(self.alloc, &mut out, &entry)?;
        push_parts(self.alloc, &mut out, &[Part::Text(b"\n")])?;
        Ok(Some(out))
    }

    /// The names of an environment's tables.
    fn names(&self, table: &[u8], env: &Text) -> Result<Option<Vec<u8>>, NoMemory> {
        let Some(env) = env_of(&self.graph, &self.envs, env) else {
            return Ok(None);
        };
        let names = match table {
            b"structures" => self.graph.names_structure(env)?,
            b"types" => self.graph.names_type(env)?,
            _ => self.graph.names_value(env)?,
        };
        texts_line(self.alloc, &names)
    }

    /// The line of facts.
    fn facts_line(&self, facts: Facts) -> Result<Option<Vec<u8>>, NoMemory> {
        let mut out = Vec::new(self.alloc);
        let free: &[u8] = if facts.has_free { b" free" } else { b"" };
        let bound: &[u8] = if facts.has_bound_name { b" bound" } else { b"" };
        let unit: &[u8] = if facts.has_unit_name { b" unit" } else { b"" };
        let parts = [
            Part::Number(u64::from(facts.largest)),
            Part::Text(free),
            Part::Text(bound),
            Part::Text(unit),
            Part::Text(b"\n"),
        ];
        push_parts(self.alloc, &mut out, &parts)?;
        Ok(Some(out))
    }

    /// The facts of an environment.
    fn facts(&self, env: &Text) -> Result<Option<Vec<u8>>, NoMemory> {
        match env_of(&self.graph, &self.envs, env) {
            Some(env) => self.facts_line(self.graph.facts(env)),
            None => Ok(None),
        }
    }

    /// What is answered to a step that looks at an environment.
    pub fn finding_step(
        &mut self,
        step: &[u8],
        words: &[Text],
    ) -> Result<Option<Vec<u8>>, NoMemory> {
        match (step, words) {
            (b"structure", [env, name]) => self.structure(env, name),
            (b"type", [env, name]) => self.type_str(env, name),
            (b"value", [env, name]) => self.value(env, name),
            (b"structures", [env]) => self.names(step, env),
            (b"types", [env]) => self.names(step, env),
            (b"values", [env]) => self.names(step, env),
            (b"facts", [env]) => self.facts(env),
            _ => Ok(None),
        }
    }
}
