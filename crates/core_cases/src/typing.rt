//! The type of an expression in the initial basis.

ghost use Rattle.type_nodes.specs.Tables.{Has};

use crate::start::basis_env;
use case_texts::{line, push_line, refusal};
use cm_base::{List, NoMemory};
use core_elab::elab_exp;
use semantic_objects::TyId;
use sml_modules::EnvGraph;
use sml_trees::Exp;
use sml_types::TypeTable;
use std::alloc::Global;
use type_printing::push_scheme;

/// A type, closed over all its variables, as a line.
fn type_line(alloc: Global, table: &mut TypeTable, id: TyId) -> Result<Vec<u8>, NoMemory>
    requires { Has table.old id }
{
    let scheme = table.generalise(id, &List::new(alloc))?;
    let mut out = Vec::new(alloc);
    push_scheme(alloc, &mut out, &scheme)?;
    push_line(alloc, &mut out, b"")?;
    Ok(out)
}

/// The type of an expression in the initial basis, which is made in an empty graph.
fn typed_in(
    alloc: Global,
    g: &mut EnvGraph,
    table: &mut TypeTable,
    exp: &Exp,
    is_brief: bool,
) -> Result<Vec<u8>, NoMemory> {
    let env = basis_env(alloc, g)?;
    match elab_exp(g, table, env, exp) {
        Ok(_id) if is_brief => line(alloc, b"ok"),
        Ok(id) => type_line(alloc, table, id),
        Err(fault) => refusal(alloc, &fault),
    }
}

/// The type of an expression, closed over all its variables, or `ok` in its place, or the refusal.
pub fn typed(alloc: Global, exp: &Exp, is_brief: bool) -> Result<Vec<u8>, NoMemory> {
    let mut table = TypeTable::new(alloc)?;
    let mut graph = EnvGraph::new(alloc)?;
    typed_in(alloc, &mut graph, &mut table, exp, is_brief)
}
