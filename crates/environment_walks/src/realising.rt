//! An environment with type functions in place of type names.

ghost use Rattle.std.specs.Prelude.{◌≡◌, IfOk, OnErr};
ghost use Rattle.realisation.specs.Realised.{realised};
ghost use Rattle.sml_modules.specs.Graphs.{env_at, HasEnv, GivesEnv};
ghost use Rattle.sml_modules.specs.Adding.{Extends};
ghost use Rattle.type_walks.specs.Replaced.{put_by};

use crate::changing::{TypeChanges, change_env};
use crate::owners::Owners;
use crate::places::Images;
use cm_base::NoMemory;
use env_parts::Facts;
use semantic_objects::{TypeStr, ValueEntry};
use sml_modules::{EnvGraph, EnvId};
use std::alloc::Global;
use std::marker::Model;
use type_walks::{Realisation, Replacements, replaced_type, replaced_value};

/// A realisation with its table, and the owners of the names that it replaces.
#[derive(Drop)]
struct Replacing {
    by: Replacements,
    owners: Owners,
}

impl Model for Replacing {
    ghost use Rattle.std.specs.Prelude.{◌≡◌, List};
    ghost use Rattle.std.specs.Coded.{coded_list};
    ghost use Rattle.type_walks.specs.declared.replacing.Replace.{Replace};
    ghost use Rattle.type_walks.specs.contracts.replacing.Replace as replace;
    ghost use Rattle.environment_walks.specs.Owners.{owners_of};

    ghost Value = { List Replace };

    ghost coded = { coded_list replace.the_row.coded };

    ghost view = { λ r. r.by };

    ghost invariant = { λ r. r.owners ≡ owners_of r.by };
}

impl Replacing {
    /// A realisation with its table.
    fn new(alloc: Global, by: &Realisation) -> Result<Replacing, NoMemory>
        ensures { IfOk result (λ made. made ≡ by.now.list) }
    {
        let owners = Owners::of(by);
        let by = Replacements::new(alloc, by)?;
        Ok(Replacing { by, owners })
    }
}

impl TypeChanges for Replacing {
    ghost use Rattle.type_walks.specs.Replaced.{replacing};

    ghost change = { replacing };

    fn changed_type(&self, alloc: Global, entry: &TypeStr) -> Result<Option<TypeStr>, NoMemory> {
        replaced_type(alloc, &self.by, entry)
    }

    fn changed_value(
        &self,
        alloc: Global,
        entry: &ValueEntry,
    ) -> Result<Option<ValueEntry>, NoMemory> {
        replaced_value(alloc, &self.by, entry)
    }

    fn keeps_all_with(&self, facts: Facts) -> bool {
        self.owners.stand_outside(facts)
    }
}

/// What becomes of an environment. Want of memory may leave nodes behind.
fn walked(graph: &mut EnvGraph, by: &Replacing, env: EnvId) -> Result<EnvId, NoMemory>
    requires { HasEnv graph.old env }
    ensures extends { Extends graph.old graph.new }
    ensures gives { IfOk result (GivesEnv graph.old graph.new (realised (put_by by.now) (env_at graph.old env))) }
{
    let mut images = Images::new(graph.alloc());
    change_env(graph, by, env, &mut images)
}

/// The environment with type functions in place of type names. A part in which no name that is replaced occurs keeps its
/// id: the facts of environments tell where none of its owner occurs, and these aren't gone through. A name may be replaced by a function of another arity: an argument that is missing stands for the empty record.
/// The Definition of Standard ML (Revised), section 5.2.
pub fn realise(graph: &mut EnvGraph, env: EnvId, by: &Realisation) -> Result<EnvId, NoMemory>
    requires { HasEnv graph.old env }
    ensures ok { IfOk result (GivesEnv graph.old graph.new
        (realised (put_by by.now.list) (env_at graph.old env))) }
    ensures err { OnErr result (graph.new ≡ graph.old) }
{
    let by = Replacing::new(graph.alloc(), by)?;
    let before = graph.len();
    match walked(graph, &by, env) {
        Ok(id) => Ok(id),
        Err(NoMemory) => {
            graph.cut(before);
            Err(NoMemory)
        }
    }
}
