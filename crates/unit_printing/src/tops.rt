//! What stands at the top.

ghost use Rattle.sml_modules.specs.Graphs.{HasTop, HasFunctor};

use crate::environments::push_env;
use case_files::{Part, push_parts};
use cm_base::{NoMemory, Text};
use sml_modules::{EnvGraph, FunId, TopId};
use std::alloc::Global;
use type_printing::NameNumbers;

/// How deep structures are told.
const LEVELS: u32 = 1024;

/// Adds a word and a name.
fn push_head<'x>(
    alloc: Global,
    out: &mut Vec<u8>,
    word: &'x [u8],
    name: &'x Text,
) -> Result<(), NoMemory> {
    push_parts(alloc, out, &[Part::Text(word), Part::Text(name.as_bytes())])
}

/// Adds the end of a line.
fn push_end(alloc: Global, out: &mut Vec<u8>) -> Result<(), NoMemory> {
    push_parts(alloc, out, &[Part::Text(b"\n")])
}

/// Adds the line of a structure, if there is one of this name.
pub fn push_structure(
    alloc: Global,
    out: &mut Vec<u8>,
    numbers: &mut NameNumbers,
    g: &EnvGraph,
    top: TopId,
    name: &Text,
) -> Result<(), NoMemory>
    requires { HasTop g.now top }
{
    let all = g.env_of(top)?;
    if let Some(env) = g.find_structure(all, name)? {
        push_head(alloc, out, b"structure ", name)?;
        push_parts(alloc, out, &[Part::Text(b" : ")])?;
        push_env(alloc, out, numbers, g, env, LEVELS)?;
        push_end(alloc, out)?;
    }
    Ok(())
}

/// Adds the line of a signature, if there is one of this name.
pub fn push_signature(
    alloc: Global,
    out: &mut Vec<u8>,
    numbers: &mut NameNumbers,
    g: &EnvGraph,
    top: TopId,
    name: &Text,
) -> Result<(), NoMemory>
    requires { HasTop g.now top }
{
    if let Some(sig) = g.find_signature(top, name)? {
        let parts = g.read_sig(sig)?;
        numbers.begin_binder(alloc);
        push_head(alloc, out, b"signature ", name)?;
        push_parts(alloc, out, &[Part::Text(b" = ")])?;
        push_env(alloc, out, numbers, g, parts.env, LEVELS)?;
        push_end(alloc, out)?;
    }
    Ok(())
}

/// Adds the parameter and the result of a functor.
fn push_arrow(
    alloc: Global,
    out: &mut Vec<u8>,
    numbers: &mut NameNumbers,
    g: &EnvGraph,
    fun: FunId,
) -> Result<(), NoMemory>
    requires { HasFunctor g.now fun }
{
    let parts = g.read_fun(fun)?;
    numbers.begin_binder(alloc);
    push_parts(alloc, out, &[Part::Text(b" (")])?;
    push_env(alloc, out, numbers, g, parts.param, LEVELS)?;
    push_parts(alloc, out, &[Part::Text(b") : ")])?;
    push_env(alloc, out, numbers, g, parts.result, LEVELS)?;
    push_end(alloc, out)
}

/// Adds the line of a functor, if there is one of this name.
pub fn push_functor(
    alloc: Global,
    out: &mut Vec<u8>,
    numbers: &mut NameNumbers,
    g: &EnvGraph,
    top: TopId,
    name: &Text,
) -> Result<(), NoMemory>
    requires { HasTop g.now top }
{
    if let Some(fun) = g.find_functor(top, name)? {
        push_head(alloc, out, b"functor ", name)?;
        push_arrow(alloc, out, numbers, g, fun)?;
    }
    Ok(())
}

/// Adds the line of a signature of functors, if there is one of this name.
pub fn push_funsig(
    alloc: Global,
    out: &mut Vec<u8>,
    numbers: &mut NameNumbers,
    g: &EnvGraph,
    top: TopId,
    name: &Text,
) -> Result<(), NoMemory>
    requires { HasTop g.now top }
{
    if let Some(fun) = g.find_funsig(top, name)? {
        push_head(alloc, out, b"funsig ", name)?;
        push_arrow(alloc, out, numbers, g, fun)?;
    }
    Ok(())
}

/// Adds the lines of the structures.
fn push_structures(
    alloc: Global,
    out: &mut Vec<u8>,
    numbers: &mut NameNumbers,
    g: &EnvGraph,
    top: TopId,
) -> Result<(), NoMemory>
    requires { HasTop g.now top }
{
    let env = g.env_of(top)?;
    let names = g.names_structure(env)?;
    for name in names.as_slice() {
        push_structure(alloc, out, numbers, g, top, name)?;
    }
    Ok(())
}

/// Adds the lines of the signatures.
fn push_signatures(
    alloc: Global,
    out: &mut Vec<u8>,
    numbers: &mut NameNumbers,
    g: &EnvGraph,
    top: TopId,
) -> Result<(), NoMemory>
    requires { HasTop g.now top }
{
    let names = g.names_signature(top)?;
    for name in names.as_slice() {
        push_signature(alloc, out, numbers, g, top, name)?;
    }
    Ok(())
}

/// Adds the lines of the functors.
fn push_functors(
    alloc: Global,
    out: &mut Vec<u8>,
    numbers: &mut NameNumbers,
    g: &EnvGraph,
    top: TopId,
) -> Result<(), NoMemory>
    requires { HasTop g.now top }
{
    let names = g.names_functor(top)?;
    for name in names.as_slice() {
        push_functor(alloc, out, numbers, g, top, name)?;
    }
    Ok(())
}

/// Adds the lines of the signatures of functors.
fn push_funsigs(
    alloc: Global,
    out: &mut Vec<u8>,
    numbers: &mut NameNumbers,
    g: &EnvGraph,
    top: TopId,
) -> Result<(), NoMemory>
    requires { HasTop g.now top }
{
    let names = g.names_funsig(top)?;
    for name in names.as_slice() {
        push_funsig(alloc, out, numbers, g, top, name)?;
    }
    Ok(())
}

/// Adds a line for each structure, signature, functor and signature of functors of a top, in this order, each in the
/// byte order of their names.
pub fn push_top(
    alloc: Global,
    out: &mut Vec<u8>,
    numbers: &mut NameNumbers,
    g: &EnvGraph,
    top: TopId,
) -> Result<(), NoMemory>
    requires { HasTop g.now top }
{
    push_structures(alloc, out, numbers, g, top)?;
    push_signatures(alloc, out, numbers, g, top)?;
    push_functors(alloc, out, numbers, g, top)?;
    push_funsigs(alloc, out, numbers, g, top)
}
