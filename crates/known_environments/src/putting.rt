//! An environment as it is known.

ghost use Rattle.std.specs.Prelude.{◌≡◌, IfOk, OnErr};
ghost use Rattle.type_nodes.specs.Tables.{state};
ghost use Rattle.sml_modules.specs.Graphs.{env_at, HasEnv, GivesEnv};
ghost use Rattle.sml_modules.specs.Adding.{Extends};
ghost use Rattle.static_semantics.specs.EnvironmentsPut.{put_env};

use crate::collecting::collect;
use crate::entries::{known_type, known_value};
use crate::knowing::Knowing;
use crate::known::Known;
use cm_base::NoMemory;
use env_parts::Facts;
use environment_walks::{Images, TypeChanges, change_env};
use semantic_objects::{TypeStr, ValueEntry};
use sml_modules::{EnvGraph, EnvId};
use sml_types::TypeTable;
use std::alloc::Global;
use std::mem;

impl TypeChanges for Knowing {
    ghost use Rattle.known_environments.specs.Known.{known_by};

    ghost change = { known_by };

    fn changed_type(&self, alloc: Global, entry: &TypeStr) -> Result<Option<TypeStr>, NoMemory> {
        known_type(alloc, self, entry)
    }

    fn changed_value(
        &self,
        alloc: Global,
        entry: &ValueEntry,
    ) -> Result<Option<ValueEntry>, NoMemory> {
        known_value(alloc, self, entry)
    }

    fn keeps_all_with(&self, facts: Facts) -> bool {
        !facts.has_free
    }
}

/// What becomes of an environment. Want of memory may leave nodes behind.
fn put_known(g: &mut EnvGraph, by: &Knowing, env: EnvId) -> Result<EnvId, NoMemory>
    requires { HasEnv g.old env }
    ensures extends { Extends g.old g.new }
    ensures gives { IfOk result (GivesEnv g.old g.new (put_env (state by.now).stands (env_at g.old env))) }
{
    let mut images = Images::new(g.alloc());
    change_env(g, by, env, &mut images)
}

/// The environment with what stands for the variables of the table put in for them. A part in which no variable stood
/// when it was made keeps its id and isn't gone through, and each other part is made once. The table is as before. A
/// variable that the table doesn't have is refused as want of memory is.
/// The Definition of Standard ML (Revised), section 4.2.
pub fn known_env(g: &mut EnvGraph, t: &mut TypeTable, env: EnvId) -> Result<EnvId, NoMemory>
    requires { HasEnv g.old env }
    ensures ok { IfOk result (GivesEnv g.old g.new (put_env (state t.old).stands (env_at g.old env))) }
    ensures err { OnErr result (g.new ≡ g.old) }
    ensures same { t.new ≡ t.old }
{
    let alloc = g.alloc();
    let mut known = Known::new(alloc);
    collect(g, t, env, &mut known)?;
    let empty = TypeTable::new(alloc)?;
    let by = Knowing {
        table: mem::replace(t, empty),
        known,
    };
    let before = g.len();
    let made = put_known(g, &by, env);
    let Knowing { table, known: _ } = by;
    *t = table;
    match made {
        Ok(id) => Ok(id),
        Err(NoMemory) => {
            g.cut(before);
            Err(NoMemory)
        }
    }
}
