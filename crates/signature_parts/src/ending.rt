//! The end of `sig .. end`.

ghost use Rattle.std.specs.Prelude.{◌≡◌, IfOk, OnErr};
ghost use Rattle.sml_modules.specs.Graphs.{value_rows, HasSigParts};
ghost use Rattle.core_scopes.specs.Scopes.{AreEnvs};
ghost use Rattle.signature_specs.specs.Specs.{signature_so_far};
ghost use Rattle.where_types.specs.Where.{GivesParts};

use crate::scoping::{list_structures, list_types};
use cm_base::{List, NoMemory, Text};
use env_parts::copy_value;
use semantic_objects::ValueEntry;
use signature_specs::Specified;
use sml_modules::{EnvGraph, NamedValue, SigParts};
use std::alloc::Global;

/// Values with their names.
fn list_values(alloc: Global, rows: &[(Text, ValueEntry)]) -> Result<List<NamedValue>, NoMemory>
    ensures { IfOk result (λ list. value_rows list ≡ rows.now) }
{
    let mut list = List::new(alloc);
    for row in rows {
        list.add(NamedValue {
            name: row.0.copy()?,
            entry: copy_value(alloc, &row.1)?,
        })?;
    }
    Ok(list)
}

/// The open signature of what is specified: its environment is made at once. Want of memory leaves the graph as it was.
/// The Definition of Standard ML (Revised), rule 62.
pub fn end_signature(alloc: Global, g: &mut EnvGraph, made: Specified) -> Result<SigParts, NoMemory>
    requires { AreEnvs g.old made.structures }
    ensures ok { IfOk result (GivesParts g.old g.new (signature_so_far g.old made)) }
    ensures err { OnErr result (g.new ≡ g.old) }
{
    let structures = list_structures(alloc, made.structures.rows())?;
    let types = list_types(alloc, made.types.rows())?;
    let values = list_values(alloc, made.values.rows())?;
    let env = g.make_env(&structures, types, values)?;
    Ok(SigParts {
        bound: made.bound,
        env,
    })
}
