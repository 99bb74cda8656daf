//! What is printed of an environment.

ghost use Rattle.sml_modules.specs.Graphs.{HasEnv};

use case_files::{Part, push_parts};
use cm_base::{NoMemory, Text};
use entry_printing::{type_line, value_line};
use semantic_objects::{Symbol, TypeNode, TypeStr};
use sml_modules::{EnvGraph, EnvId};
use std::alloc::Global;

/// Adds a word, a name and a line.
fn push_entry<'x>(
    alloc: Global,
    out: &mut Vec<u8>,
    word: &'x [u8],
    name: &'x Text,
    line: &'x [u8],
) -> Result<(), NoMemory> {
    push_parts(
        alloc,
        out,
        &[
            Part::Text(word),
            Part::Text(b" "),
            Part::Text(name.as_bytes()),
            Part::Text(b" "),
            Part::Text(line),
        ],
    )
}

/// Adds a line for the type of a name.
fn push_type(
    alloc: Global,
    g: &EnvGraph,
    env: EnvId,
    name: &Text,
    out: &mut Vec<u8>,
) -> Result<(), NoMemory>
    requires { HasEnv g.now env }
{
    match g.find_type(env, name)? {
        Some(entry) => {
            let line = type_line(alloc, &entry)?;
            push_entry(alloc, out, b"type", name, line.as_slice())
        }
        None => Ok(()),
    }
}

/// Adds a line for the value of a name.
fn push_value(
    alloc: Global,
    g: &EnvGraph,
    env: EnvId,
    name: &Text,
    out: &mut Vec<u8>,
) -> Result<(), NoMemory>
    requires { HasEnv g.now env }
{
    match g.find_value(env, name)? {
        Some(entry) => {
            let line = value_line(alloc, &entry)?;
            push_entry(alloc, out, b"value", name, line.as_slice())
        }
        None => Ok(()),
    }
}

/// Adds a line for each type of an environment.
fn push_types(alloc: Global, g: &EnvGraph, env: EnvId, out: &mut Vec<u8>) -> Result<(), NoMemory>
    requires { HasEnv g.now env }
{
    for name in g.names_type(env)?.as_slice() {
        push_type(alloc, g, env, name, out)?;
    }
    Ok(())
}

/// Adds a line for each value of an environment.
fn push_values(alloc: Global, g: &EnvGraph, env: EnvId, out: &mut Vec<u8>) -> Result<(), NoMemory>
    requires { HasEnv g.now env }
{
    for name in g.names_value(env)?.as_slice() {
        push_value(alloc, g, env, name, out)?;
    }
    Ok(())
}

/// The types and the values of an environment, a line each.
pub fn lines_of(alloc: Global, g: &EnvGraph, env: EnvId) -> Result<Vec<u8>, NoMemory> {
    if !g.has_env(env) {
        return Err(NoMemory);
    }
    let mut out = Vec::new(alloc);
    push_types(alloc, g, env, &mut out)?;
    push_values(alloc, g, env, &mut out)?;
    Ok(out)
}

/// Whether a type function is a type name that admits equality.
fn admits_equality(entry: &TypeStr) -> bool {
    match entry.function.body.nodes() {
        [.., TypeNode::Made(Symbol::Name(name), _)] => name.eq,
        _ => false,
    }
}

/// How many types an environment has, and how many of these are type names that admit equality.
fn type_counts(g: &EnvGraph, env: EnvId) -> Result<(u64, u64), NoMemory>
    requires { HasEnv g.now env }
{
    let mut types = 0u64;
    let mut equality = 0u64;
    for name in g.names_type(env)?.as_slice() {
        types = types.saturating_add(1);
        match g.find_type(env, name)? {
            Some(entry) if admits_equality(&entry) => equality = equality.saturating_add(1),
            _ => {}
        }
    }
    Ok((types, equality))
}

/// How many values an environment has.
fn value_count(g: &EnvGraph, env: EnvId) -> Result<u64, NoMemory>
    requires { HasEnv g.now env }
{
    let names = g.names_value(env)?;
    Ok(names.len() as u64)
}

/// How many types and values an environment has, as a line.
pub fn counts_of(alloc: Global, g: &EnvGraph, env: EnvId) -> Result<Vec<u8>, NoMemory> {
    if !g.has_env(env) {
        return Err(NoMemory);
    }
    let (types, equality) = type_counts(g, env)?;
    let values = value_count(g, env)?;
    let mut out = Vec::new(alloc);
    push_parts(
        alloc,
        &mut out,
        &[
            Part::Text(b"types "),
            Part::Number(types),
            Part::Text(b", equality "),
            Part::Number(equality),
            Part::Text(b", values "),
            Part::Number(values),
            Part::Text(b"\n"),
        ],
    )?;
    Ok(out)
}

/// How many type names a graph has made, as a line.
pub fn names_line(alloc: Global, g: &EnvGraph) -> Result<Vec<u8>, NoMemory> {
    let mut out = Vec::new(alloc);
    push_parts(
        alloc,
        &mut out,
        &[
            Part::Text(b"made "),
            Part::Number(g.made()),
            Part::Text(b"\n"),
        ],
    )?;
    Ok(out)
}
