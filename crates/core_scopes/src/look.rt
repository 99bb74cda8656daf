//! What the names in scope stand for.

ghost use Rattle.std.specs.Prelude.{◌≡◌, IfOk};
ghost use Rattle.std.specs.Option.{option_copied, option_map};
ghost use Rattle.semantic_objects.specs.declared.entry.ValueEntry.{ValueEntry};
ghost use Rattle.semantic_objects.specs.Tables.{entry};
ghost use Rattle.semantic_objects.specs.Environments.{structures, types, values};
ghost use Rattle.sml_modules.specs.Items.{function_of};
ghost use Rattle.sml_modules.specs.Graphs.{env_at, HasEnv, FindsEnv};
ghost use Rattle.name_trails.specs.Trails.{last_entry};
ghost use Rattle.core_scopes.specs.Scopes.{seen, entry_of, IsScopeOf};

use crate::scope::Scope;
use crate::value::{BoundValue, ValueInScope};
use cm_base::{NoMemory, Text};
use env_parts::copy_type;
use semantic_objects::{TypeFn, TypeStr};
use sml_modules::{EnvGraph, EnvId, copy_function};

impl<V: Copy + Drop> Scope<V> {
    /// The structure that was bound under a name.
    fn bound_structure(&self, name: &Text) -> Option<EnvId>
        ensures { result ≡ last_entry self.now.structures name.now }
    {
        match self.structures.find(name) {
            Some(env) => Some(*env),
            None => None,
        }
    }

    /// The structure of that name.
    pub fn find_structure(&self, g: &EnvGraph, name: &Text) -> Result<Option<EnvId>, NoMemory>
        requires { IsScopeOf g.now self.now }
        ensures { IfOk result (λ found. (read : V → ValueEntry)
            → FindsEnv g.now (entry name.now (structures (seen g.now read self.now))) found) }
    {
        match self.bound_structure(name) {
            Some(env) => Ok(Some(env)),
            None => g.find_structure(self.below, name),
        }
    }

    /// The type structure of that name.
    pub fn find_type(&self, g: &EnvGraph, name: &Text) -> Result<Option<TypeStr>, NoMemory>
        requires { IsScopeOf g.now self.now }
        ensures { IfOk result (λ found. (read : V → ValueEntry)
            → found ≡ entry name.now (types (seen g.now read self.now))) }
    {
        match self.types.find(name) {
            Some(entry) => Ok(Some(copy_type(self.alloc, entry)?)),
            None => g.find_type(self.below, name),
        }
    }

    /// The type function of that name. No constructor is copied, however many there are.
    pub fn find_type_function(&self, g: &EnvGraph, name: &Text) -> Result<Option<TypeFn>, NoMemory>
        requires { IsScopeOf g.now self.now }
        ensures { IfOk result (λ found. (read : V → ValueEntry)
            → found ≡ option_map function_of (entry name.now (types (seen g.now read self.now)))) }
    {
        match self.types.find(name) {
            Some(entry) => Ok(Some(copy_function(self.alloc, &entry.function)?)),
            None => g.find_type_function(self.below, name),
        }
    }

    /// What was bound last under a name over the environment. It takes no memory.
    pub fn bound_value(&self, name: &Text) -> Option<&BoundValue<V>>
        ensures { option_copied result ≡ last_entry self.now.values name.now }
    {
        self.values.find(name)
    }

    /// The value of that name.
    pub fn find_value(&self, g: &EnvGraph, name: &Text) -> Result<Option<ValueInScope<V>>, NoMemory>
        requires { IsScopeOf g.now self.now }
        ensures { IfOk result (λ found. (read : V → ValueEntry)
            → option_map (entry_of read) found ≡ entry name.now (values (seen g.now read self.now))) }
    {
        match self.values.find(name) {
            Some(bound) => Ok(Some(bound.value.copy(self.alloc)?)),
            None => value_of_env(g, self.below, name),
        }
    }
}

/// The value of that name in an environment, as one in scope.
pub(crate) fn value_of_env<V>(
    g: &EnvGraph,
    env: EnvId,
    name: &Text,
) -> Result<Option<ValueInScope<V>>, NoMemory>
    requires { HasEnv g.now env }
    ensures { IfOk result (λ found. (read : V → ValueEntry)
        → option_map (entry_of read) found ≡ entry name.now (values (env_at g.now env))) }
{
    match g.find_value(env, name)? {
        Some(entry) => Ok(Some(ValueInScope::Entry(entry))),
        None => Ok(None),
    }
}
