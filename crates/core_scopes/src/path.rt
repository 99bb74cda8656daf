//! What long names stand for in scope.

ghost use Rattle.std.specs.Prelude.{◌≡◌, IfOk};
ghost use Rattle.std.specs.Option.{option_map};
ghost use Rattle.semantic_objects.specs.declared.entry.ValueEntry.{ValueEntry};
ghost use Rattle.semantic_objects.specs.Environments.{structures, types, values};
ghost use Rattle.sml_modules.specs.Items.{function_of};
ghost use Rattle.sml_modules.specs.Graphs.{env_at, HasEnv, FindsEnv};
ghost use Rattle.static_semantics.specs.Inferring.{found_at};
ghost use Rattle.core_scopes.specs.Scopes.{seen, entry_of, IsScopeOf};
ghost use Rattle.core_scopes.specs.Paths.{led_on};

use crate::look::value_of_env;
use crate::scope::Scope;
use crate::value::ValueInScope;
use cm_base::{NoMemory, Text};
use semantic_objects::{TypeFn, TypeStr};
use sml_modules::{EnvGraph, EnvId};

/// The structure to which names lead from a structure on, each of the one before it.
fn lead_on(g: &EnvGraph, env: EnvId, names: &[Text]) -> Result<Option<EnvId>, NoMemory>
    requires { HasEnv g.now env }
    ensures { IfOk result (FindsEnv g.now (led_on names.now (env_at g.now env))) }
{
    let mut at = env;
    for name in names {
        match g.find_structure(at, name)? {
            Some(next) => at = next,
            None => return Ok(None),
        }
    }
    Ok(Some(at))
}

impl<V: Copy + Drop> Scope<V> {
    /// The structure of a long name: none where a part is missing.
    pub fn find_long_structure(
        &self,
        g: &EnvGraph,
        parts: &[Text],
    ) -> Result<Option<EnvId>, NoMemory>
        requires { IsScopeOf g.now self.now }
        ensures { IfOk result (λ found. (read : V → ValueEntry)
            → FindsEnv g.now (found_at structures parts.now (seen g.now read self.now)) found) }
    {
        let Some((first, rest)) = parts.split_first() else {
            return Ok(None);
        };
        match self.find_structure(g, first)? {
            Some(env) => lead_on(g, env, rest),
            None => Ok(None),
        }
    }

    /// The type structure of a long name: none where a part is missing.
    pub fn find_long_type(&self, g: &EnvGraph, parts: &[Text]) -> Result<Option<TypeStr>, NoMemory>
        requires { IsScopeOf g.now self.now }
        ensures { IfOk result (λ found. (read : V → ValueEntry)
            → found ≡ found_at types parts.now (seen g.now read self.now)) }
    {
        let Some((last, front)) = parts.split_last() else {
            return Ok(None);
        };
        if front.is_empty() {
            return self.find_type(g, last);
        }
        match self.find_long_structure(g, front)? {
            Some(env) => g.find_type(env, last),
            None => Ok(None),
        }
    }

    /// The type function of a long name: none where a part is missing. No constructor is copied, however many there are.
    pub fn find_long_type_function(
        &self,
        g: &EnvGraph,
        parts: &[Text],
    ) -> Result<Option<TypeFn>, NoMemory>
        requires { IsScopeOf g.now self.now }
        ensures { IfOk result (λ found. (read : V → ValueEntry)
            → found ≡ option_map function_of (found_at types parts.now (seen g.now read self.now))) }
    {
        let Some((last, front)) = parts.split_last() else {
            return Ok(None);
        };
        if front.is_empty() {
            return self.find_type_function(g, last);
        }
        match self.find_long_structure(g, front)? {
            Some(env) => g.find_type_function(env, last),
            None => Ok(None),
        }
    }

    /// The value of a long name: none where a part is missing.
    pub fn find_long_value(
        &self,
        g: &EnvGraph,
        parts: &[Text],
    ) -> Result<Option<ValueInScope<V>>, NoMemory>
        requires { IsScopeOf g.now self.now }
        ensures { IfOk result (λ found. (read : V → ValueEntry)
            → option_map (entry_of read) found ≡ found_at values parts.now (seen g.now read self.now)) }
    {
        let Some((last, front)) = parts.split_last() else {
            return Ok(None);
        };
        if front.is_empty() {
            return self.find_value(g, last);
        }
        match self.find_long_structure(g, front)? {
            Some(env) => value_of_env(g, env, last),
            None => Ok(None),
        }
    }
}
