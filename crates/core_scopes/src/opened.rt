//! Environments that are opened in a scope.

ghost use Rattle.std.specs.Prelude.{◌≡◌, ◌++◌, length, take, OnOk, OnErr};
ghost use Rattle.semantic_objects.specs.Environments.{modified_by, types};
ghost use Rattle.sml_modules.specs.Graphs.{env_at, HasEnv};
ghost use Rattle.core_scopes.specs.Scopes.{seen, written_of};
ghost use Rattle.core_scopes.specs.Marks.{AddsBare, Becomes, IsFrontOf};
ghost use Rattle.core_scopes.specs.Opened.{OpensStructures, OpensValues, Opens};

use crate::scope::Scope;
use crate::value::{BoundValue, ValueInScope};
use cm_base::{NoMemory, Text};
use name_trails::NameTrail;
use semantic_objects::TypeStr;
use sml_modules::{EnvGraph, EnvId};

/// Binds the structures of an environment. After want of memory some of them may be bound.
fn open_structures(g: &EnvGraph, env: EnvId, trail: &mut NameTrail<EnvId>) -> Result<(), NoMemory>
    requires { HasEnv g.now env }
    ensures ok { OnOk result (OpensStructures g.now (env_at g.now env) trail.old trail.new) }
    ensures kept { take (length trail.old) trail.new ≡ trail.old }
{
    let names = g.names_structure(env)?;
    for name in names.into_vec() {
        if let Some(entry) = g.find_structure(env, &name)? {
            trail.bind(name, entry)?;
        }
    }
    Ok(())
}

/// Binds the type structures of an environment. After want of memory some of them may be bound.
fn open_types(g: &EnvGraph, env: EnvId, trail: &mut NameTrail<TypeStr>) -> Result<(), NoMemory>
    requires { HasEnv g.now env }
    ensures ok { OnOk result (trail.new ≡ trail.old ++ types (env_at g.now env)) }
    ensures kept { take (length trail.old) trail.new ≡ trail.old }
{
    let names = g.names_type(env)?;
    for name in names.into_vec() {
        if let Some(entry) = g.find_type(env, &name)? {
            trail.bind(name, entry)?;
        }
    }
    Ok(())
}

/// Binds the values of an environment. After want of memory some of them may be bound.
fn open_values<V: Copy + Drop>(
    g: &EnvGraph,
    env: EnvId,
    trail: &mut NameTrail<BoundValue<V>>,
) -> Result<(), NoMemory>
    requires { HasEnv g.now env }
    ensures ok { OnOk result (OpensValues (env_at g.now env) trail.old trail.new) }
    ensures kept { take (length trail.old) trail.new ≡ trail.old }
{
    let names = g.names_value(env)?;
    for name in names.into_vec() {
        if let Some(entry) = g.find_value(env, &name)? {
            let bound = BoundValue {
                value: ValueInScope::Entry(entry),
                scheme: None,
            };
            trail.bind(name, bound)?;
        }
    }
    Ok(())
}

impl<V: Copy + Drop> Scope<V> {
    /// Binds all that an environment has. After want of memory some of it may be bound.
    fn open_all(&mut self, g: &EnvGraph, env: EnvId) -> Result<(), NoMemory>
        requires { HasEnv g.now env }
        ensures ok { OnOk result (Opens g.now env self.old self.new) }
        ensures kept { IsFrontOf self.old self.new }
    {
        open_structures(g, env, &mut self.structures)?;
        open_types(g, env, &mut self.types)?;
        open_values(g, env, &mut self.values)
    }

    /// Opens an environment: each name that it has stands for what it has under it, and each other name for what it
    /// stood for. Want of memory leaves the scope as it was.
    pub fn open_env(&mut self, g: &EnvGraph, env: EnvId) -> Result<(), NoMemory>
        requires { HasEnv g.now env }
        ensures ok { OnOk result (Becomes g.now self.old self.new
            (λ read. modified_by (seen g.now read self.old) (env_at g.now env)) (written_of self.old)) }
        ensures bare { OnOk result (AddsBare self.old self.new) }
        ensures err { OnErr result (self.new ≡ self.old) }
    {
        let before = self.mark();
        match self.open_all(g, env) {
            Ok(()) => Ok(()),
            Err(NoMemory) => {
                self.leave(before);
                Err(NoMemory)
            }
        }
    }
}
