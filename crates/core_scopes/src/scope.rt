//! The scope: entering and leaving it, and binding names in it.

ghost use Rattle.std.specs.Prelude.{◌≡◌, ◌↔◌, [], IsTrue, OnOk, OnErr};
ghost use Rattle.semantic_objects.specs.declared.entry.ValueEntry.{ValueEntry};
ghost use Rattle.semantic_objects.specs.Environments.{with_structure, with_type, with_value};
ghost use Rattle.sml_modules.specs.Graphs.{Graph, env_at, HasEnv};
ghost use Rattle.core_scopes.specs.Scopes.{Bindings, seen, written_of, entry_of, AreEnvs, IsScopeOf};
ghost use Rattle.core_scopes.specs.Marks.{outermost, mark_of, AddsBare, IsFrontOf, Becomes};

use crate::mark::ScopeMark;
use crate::value::{BoundValue, ValueInScope};
use cm_base::{NoMemory, Text};
use name_trails::NameTrail;
use semantic_objects::{TyId, TypeStr};
use sml_modules::{EnvGraph, EnvId};
use std::alloc::Global;
use std::marker::Model;

/// What is in scope: an environment of a graph, and what was bound over it. Contracts see the bindings, and speak of
/// the environment and the written type variables that they make.
#[derive(Drop)]
pub struct Scope<V> {
    pub(crate) alloc: Global,
    pub(crate) below: EnvId,
    pub(crate) structures: NameTrail<EnvId>,
    pub(crate) types: NameTrail<TypeStr>,
    pub(crate) values: NameTrail<BoundValue<V>>,
    pub(crate) written: NameTrail<TyId>,
    pub(crate) hidden: usize,
}

impl<V> Model for Scope<V> {
    ghost use Rattle.std.specs.Prelude.{◌≤◌, length};
    ghost use Rattle.core_scopes.specs.Scopes.{Bindings};
    ghost use Rattle.core_scopes.specs.Codes.{bindings_code};

    ghost Value = { Bindings V };

    ghost coded = { bindings_code V.code };

    ghost view = { λ s. record {
      below = s.below;
      structures = s.structures;
      types = s.types;
      values = s.values;
      written = s.written;
      hidden = s.hidden;
    } };

    ghost invariant = { λ s. s.hidden ≤ length s.written };
}

/// Whether all environments of rows are of a graph.
fn are_envs(g: &EnvGraph, rows: &[(Text, EnvId)]) -> bool
    ensures { IsTrue result ↔ AreEnvs g.now rows.now }
{
    for row in rows {
        if !g.has_env(row.1) {
            return false;
        }
    }
    true
}

impl<V: Copy + Drop> Scope<V> {
    /// The scope of a whole phrase: an environment, and nothing bound over it.
    pub fn new(alloc: Global, below: EnvId) -> Scope<V>
        ensures empty { result ≡ outermost below }
        ensures seen { (g : Graph) (read : V → ValueEntry) → seen g read result ≡ env_at g below }
        ensures written { written_of result ≡ [] }
        ensures there { (g : Graph) → HasEnv g below → IsScopeOf g result }
    {
        Scope {
            alloc,
            below,
            structures: NameTrail::new(alloc),
            types: NameTrail::new(alloc),
            values: NameTrail::new(alloc),
            written: NameTrail::new(alloc),
            hidden: 0,
        }
    }

    /// Whether it is a scope of a graph, in as many steps as structures are bound. It takes no memory.
    pub fn is_of(&self, g: &EnvGraph) -> bool
        ensures { IsTrue result ↔ IsScopeOf g.now self.now }
    {
        g.has_env(self.below) && are_envs(g, self.structures.rows())
    }

    /// Remembers the scope as it stands. It takes no memory.
    pub fn mark(&self) -> ScopeMark
        ensures is { result ≡ mark_of self.now }
        ensures front { IsFrontOf self.now self.now }
    {
        ScopeMark {
            structures: self.structures.len(),
            types: self.types.len(),
            values: self.values.len(),
            written: self.written.len(),
            hidden: self.hidden,
        }
    }

    /// Makes the scope again what a mark remembers, in as many steps as there were bindings since. It takes no memory.
    pub fn leave(&mut self, to: ScopeMark)
        ensures { (past : Bindings V) → to ≡ mark_of past → IsFrontOf past self.old → self.new ≡ past }
    {
        self.structures.truncate(to.structures);
        self.types.truncate(to.types);
        self.values.truncate(to.values);
        self.written.truncate(to.written);
        self.hidden = to.hidden.min(self.written.len());
    }

    /// Binds a structure. Want of memory leaves the scope as it was.
    pub fn bind_structure(&mut self, name: Text, env: EnvId) -> Result<(), NoMemory>
        ensures ok { OnOk result ((g : Graph) → HasEnv g env → Becomes g self.old self.new
            (λ read. with_structure name (env_at g env) (seen g read self.old)) (written_of self.old)) }
        ensures bare { OnOk result (AddsBare self.old self.new) }
        ensures err { OnErr result (self.new ≡ self.old) }
    {
        self.structures.bind(name, env)?;
        Ok(())
    }

    /// Binds a type structure. Want of memory leaves the scope as it was.
    pub fn bind_type(&mut self, name: Text, entry: TypeStr) -> Result<(), NoMemory>
        ensures ok { OnOk result ((g : Graph) → Becomes g self.old self.new
            (λ read. with_type name entry (seen g read self.old)) (written_of self.old)) }
        ensures bare { OnOk result (AddsBare self.old self.new) }
        ensures err { OnErr result (self.new ≡ self.old) }
    {
        self.types.bind(name, entry)?;
        Ok(())
    }

    /// Binds a value. Want of memory leaves the scope as it was.
    pub fn bind_value(&mut self, name: Text, entry: ValueInScope<V>) -> Result<(), NoMemory>
        ensures ok { OnOk result ((g : Graph) → Becomes g self.old self.new
            (λ read. with_value name (entry_of read entry) (seen g read self.old)) (written_of self.old)) }
        ensures bare { OnOk result (AddsBare self.old self.new) }
        ensures err { OnErr result (self.new ≡ self.old) }
    {
        let bound = BoundValue {
            value: entry,
            scheme: None,
        };
        self.values.bind(name, bound)?;
        Ok(())
    }
}
