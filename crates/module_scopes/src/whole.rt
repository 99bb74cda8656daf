//! What a whole unit defines, in a graph.

ghost use Rattle.std.specs.Prelude.{◌≡◌, [], IfOk, OnOk, OnErr};
ghost use Rattle.semantic_objects.specs.Tables.{with_all};
ghost use Rattle.sml_modules.specs.Graphs.{GivesEnv, GivesTop, Keeps};
ghost use Rattle.module_scopes.specs.Tops.{structures_env, defined_top, IsDefinedIn};
ghost use Rattle.core_scopes.specs.Scopes.{AreEnvs};
ghost use Rattle.module_scopes.specs.Places.{sig_places, fun_places};

use crate::binding::list_structures;
use crate::defined::Defined;
use cm_base::{List, NoMemory, Text};
use env_parts::{Rows, TopTables};
use name_trails::NameTrail;
use sml_modules::{EnvGraph, EnvId, FunId, Node, SigId, TopId};
use std::alloc::Global;

/// Signatures by name as places.
fn signature_rows(alloc: Global, made: &[(Text, SigId)]) -> Result<Rows, NoMemory>
    ensures { IfOk result (λ rows. rows ≡ with_all (sig_places made.now) []) }
{
    let mut rows = Rows::new(alloc);
    for row in made {
        rows.set(row.0.copy()?, row.1.place)?;
    }
    Ok(rows)
}

/// Functors by name as places.
fn functor_rows(alloc: Global, made: &[(Text, FunId)]) -> Result<Rows, NoMemory>
    ensures { IfOk result (λ rows. rows ≡ with_all (fun_places made.now) []) }
{
    let mut rows = Rows::new(alloc);
    for row in made {
        rows.set(row.0.copy()?, row.1.place)?;
    }
    Ok(rows)
}

/// The environment of structures, made at once.
fn structures_made(
    alloc: Global,
    g: &mut EnvGraph,
    made: &NameTrail<EnvId>,
) -> Result<EnvId, NoMemory>
    requires { AreEnvs g.old made.now }
    ensures ok { IfOk result (GivesEnv g.old g.new (structures_env g.old made.now)) }
    ensures err { OnErr result (g.new ≡ g.old) }
{
    let structures = list_structures(alloc, made.rows())?;
    g.make_env(&structures, List::new(alloc), List::new(alloc))
}

/// The top of what a unit defines, made at once: it takes as many steps as there are names. Want of memory may leave
/// nodes behind. The Definition of Standard ML (Revised), rules 87 to 89.
pub fn make_defined(alloc: Global, g: &mut EnvGraph, defined: &Defined) -> Result<TopId, NoMemory>
    requires { IsDefinedIn g.old defined.now }
    ensures ok { IfOk result (GivesTop g.old g.new (defined_top g.old defined.now)) }
    ensures kept { OnErr result (Keeps g.old g.new) }
    ensures home { OnErr result (g.new.home ≡ g.old.home) }
{
    let signatures = signature_rows(alloc, defined.signatures.rows())?;
    let functors = functor_rows(alloc, defined.functors.rows())?;
    let funsigs = functor_rows(alloc, defined.funsigs.rows())?;
    let env = structures_made(alloc, g, &defined.structures)?;
    let place = g.add(Node::Top(TopTables {
        env: env.place,
        signatures,
        functors,
        funsigs,
    }))?;
    Ok(TopId { place })
}
