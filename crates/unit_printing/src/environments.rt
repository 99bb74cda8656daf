//! Environments.

ghost use Rattle.sml_modules.specs.Graphs.{HasEnv};

use crate::entries::{push_type_entry, push_value_entry};
use case_files::{Part, push_parts};
use cm_base::{NoMemory, Text};
use sml_modules::{EnvGraph, EnvId};
use std::alloc::Global;
use type_printing::NameNumbers;

/// Adds the types, in the byte order of their names.
fn push_types(
    alloc: Global,
    out: &mut Vec<u8>,
    numbers: &mut NameNumbers,
    g: &EnvGraph,
    env: EnvId,
) -> Result<(), NoMemory>
    requires { HasEnv g.now env }
{
    let names = g.names_type(env)?;
    for name in names.as_slice() {
        if let Some(entry) = g.find_type(env, name)? {
            push_type_entry(alloc, out, numbers, name, &entry)?;
        }
    }
    Ok(())
}

/// Adds the values, in the byte order of their names.
fn push_values(
    alloc: Global,
    out: &mut Vec<u8>,
    numbers: &mut NameNumbers,
    g: &EnvGraph,
    env: EnvId,
) -> Result<(), NoMemory>
    requires { HasEnv g.now env }
{
    let names = g.names_value(env)?;
    for name in names.as_slice() {
        if let Some(entry) = g.find_value(env, name)? {
            push_value_entry(alloc, out, numbers, name, &entry)?;
        }
    }
    Ok(())
}

/// Adds the head of a structure.
fn push_structure_head(alloc: Global, out: &mut Vec<u8>, name: &Text) -> Result<(), NoMemory> {
    push_parts(
        alloc,
        out,
        &[
            Part::Text(b" structure "),
            Part::Text(name.as_bytes()),
            Part::Text(b" : "),
        ],
    )
}

/// Adds what an environment has between `sig` and `end`: structures, types and values, each in the byte order of their
/// names. Of structures that lie deeper than so many levels `..` is told.
pub(crate) fn push_env(
    alloc: Global,
    out: &mut Vec<u8>,
    numbers: &mut NameNumbers,
    g: &EnvGraph,
    env: EnvId,
    levels: u32,
) -> Result<(), NoMemory>
    requires { HasEnv g.now env }
{
    if levels == 0 {
        return push_parts(alloc, out, &[Part::Text(b"..")]);
    }
    push_parts(alloc, out, &[Part::Text(b"sig")])?;
    let names = g.names_structure(env)?;
    for name in names.as_slice() {
        if let Some(inner) = g.find_structure(env, name)? {
            push_structure_head(alloc, out, name)?;
            push_env(alloc, out, numbers, g, inner, levels - 1)?;
        }
    }
    push_types(alloc, out, numbers, g, env)?;
    push_values(alloc, out, numbers, g, env)?;
    push_parts(alloc, out, &[Part::Text(b" end")])
}
