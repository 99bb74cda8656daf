//! The values of declarations as inference gives them.

ghost use Rattle.sml_modules.specs.Graphs.{HasEnv};

use crate::start::basis_env;
use case_files::{Part, push_parts};
use case_texts::{line, push_line, refusal};
use cm_base::{Fault, List, NoMemory, Text};
use core_elab::elab_dec;
use semantic_objects::Scheme;
use sml_modules::{EnvGraph, EnvId};
use sml_trees::Dec;
use sml_types::TypeTable;
use std::alloc::Global;
use type_printing::push_scheme;

/// Adds a value with its type as the table shows it.
fn push_value(
    alloc: Global,
    out: &mut Vec<u8>,
    table: &mut TypeTable,
    name: &Text,
    scheme: &Scheme,
) -> Result<(), NoMemory> {
    if !out.is_empty() {
        push_parts(alloc, out, &[Part::Text(b"; ")])?;
    }
    push_parts(
        alloc,
        out,
        &[Part::Text(name.as_bytes()), Part::Text(b" : ")],
    )?;
    let id = table.instantiate(scheme)?;
    let closed = table.generalise(id, &List::new(alloc))?;
    push_scheme(alloc, out, &closed)?;
    if closed.marks().len() > scheme.marks().len() {
        push_parts(alloc, out, &[Part::Text(b", open")])?;
    }
    Ok(())
}

/// The values of an environment as a line.
fn values_line(
    alloc: Global,
    g: &EnvGraph,
    table: &mut TypeTable,
    env: EnvId,
) -> Result<Vec<u8>, NoMemory>
    requires { HasEnv g.now env }
{
    let mut out = Vec::new(alloc);
    let names = g.names_value(env)?;
    for name in names.as_slice() {
        if let Some(value) = g.find_value(env, name)? {
            push_value(alloc, &mut out, table, name, &value.scheme)?;
        }
    }
    if out.is_empty() {
        return line(alloc, b"nothing");
    }
    push_line(alloc, &mut out, b"")?;
    Ok(out)
}

/// The values of a declaration in the initial basis, which is made in an empty graph.
fn declared_in(
    alloc: Global,
    g: &mut EnvGraph,
    table: &mut TypeTable,
    dec: &Dec,
    is_brief: bool,
) -> Result<Vec<u8>, NoMemory> {
    let env = basis_env(alloc, g)?;
    match elab_dec(g, table, env, dec) {
        Ok(_made) if is_brief => line(alloc, b"ok"),
        Ok(made) => values_line(alloc, g, table, made),
        Err(fault) => refusal(alloc, &fault),
    }
}

/// The values of a declaration in the initial basis, or `ok` in their place, or the refusal.
pub fn declared(alloc: Global, dec: &Dec, is_brief: bool) -> Result<Vec<u8>, NoMemory> {
    let mut table = TypeTable::new(alloc)?;
    let mut graph = EnvGraph::new(alloc)?;
    declared_in(alloc, &mut graph, &mut table, dec, is_brief)
}
