//! Steps that make something of what was bound since a mark.

ghost use Rattle.std.specs.Prelude.{IfOk};
ghost use Rattle.sml_modules.specs.Graphs.{HasEnvs};

use crate::entries::numbered_value;
use crate::scene::{ScopeScene, env_of, mark_of, number_line, ok_line};
use cm_base::{List, NoMemory, Text};
use core_scopes::{Made, NamedInScope, Scope, ValueInScope};
use semantic_objects::ValueEntry;
use sml_modules::{EnvGraph, EnvId, NamedEnv, NamedValue};
use std::alloc::Global;

/// Adds a structure to others, where it is of the graph.
#[tactic(auto, using(crate::proofs::Having::have_added))]
fn add_known(
    graph: &EnvGraph,
    known: &mut List<NamedEnv>,
    structure: NamedEnv,
) -> Result<(), NoMemory>
    requires { HasEnvs graph.now known.old }
    ensures { HasEnvs graph.now known.new }
{
    if graph.has_env(structure.env) {
        known.add(structure)?;
    }
    Ok(())
}

/// The structures that are of a graph.
fn known_of(
    alloc: Global,
    graph: &EnvGraph,
    structures: List<NamedEnv>,
) -> Result<List<NamedEnv>, NoMemory>
    ensures { IfOk result (HasEnvs graph.now) }
{
    let mut known = List::new(alloc);
    for structure in structures.into_vec() {
        add_known(graph, &mut known, structure)?;
    }
    Ok(known)
}

/// A value in scope as an entry of an environment.
fn entry_of(alloc: Global, value: ValueInScope<u32>) -> Result<ValueEntry, NoMemory> {
    match value {
        ValueInScope::Entry(entry) => Ok(entry),
        ValueInScope::Own(number) => numbered_value(alloc, number),
    }
}

/// Values in scope as entries of an environment.
fn entries_of(
    alloc: Global,
    values: List<NamedInScope<u32>>,
) -> Result<List<NamedValue>, NoMemory> {
    let mut entries = List::new(alloc);
    for value in values.into_vec() {
        let NamedInScope { name, entry } = value;
        entries.add(NamedValue {
            name,
            entry: entry_of(alloc, entry)?,
        })?;
    }
    Ok(entries)
}

impl ScopeScene {
    /// Keeps an environment, and answers its number.
    fn keep_env(&mut self, env: EnvId) -> Result<Option<Vec<u8>>, NoMemory> {
        let number = self.envs.len() as u64;
        self.envs.add(env)?;
        number_line(self.alloc, number)
    }

    /// Makes an environment of what was bound since a mark.
    fn pack(&mut self, mark: &Text) -> Result<Option<Vec<u8>>, NoMemory> {
        let Some(mark) = mark_of(&self.marks, mark) else {
            return Ok(None);
        };
        let Made {
            structures,
            types,
            values,
        } = self.scope.made_since(mark)?;
        let structures = known_of(self.alloc, &self.graph, structures)?;
        let values = entries_of(self.alloc, values)?;
        let env = self.graph.make_env(&structures, types, values)?;
        self.keep_env(env)
    }

    /// Begins a scope over an environment.
    fn begin_over(&mut self, env: &Text) -> Result<Option<Vec<u8>>, NoMemory> {
        let Some(env) = env_of(&self.graph, &self.envs, env) else {
            return Ok(None);
        };
        self.scope = Scope::new(self.alloc, env);
        self.marks = List::new(self.alloc);
        ok_line(self.alloc)
    }

    /// Leaves what was bound between two marks, and keeps what was bound since the second.
    fn keep(&mut self, outer: &Text, inner: &Text) -> Result<Option<Vec<u8>>, NoMemory> {
        let (Some(outer), Some(inner)) = (mark_of(&self.marks, outer), mark_of(&self.marks, inner))
        else {
            return Ok(None);
        };
        let made = self.scope.made_since(inner)?;
        self.scope.leave(outer);
        self.scope.bind_made(made)?;
        ok_line(self.alloc)
    }

    /// What is answered to a step of this kind.
    pub fn packing_step(
        &mut self,
        step: &[u8],
        words: &[Text],
    ) -> Result<Option<Vec<u8>>, NoMemory> {
        match (step, words) {
            (b"pack", [mark]) => self.pack(mark),
            (b"over", [env]) => self.begin_over(env),
            (b"keep", [outer, inner]) => self.keep(outer, inner),
            _ => Ok(None),
        }
    }
}
