//! The declarations of a unit are elaborated, one behind another.

use asked_phrases::{UNIT, body_of};
use cm_base::{Fault, List, NoMemory, Options, Text};
use core_scopes::{Made, NamedInScope, Scope, ValueInScope};
use datatype_declarations::datatypes;
use exception_bindings::exceptions;
use initial_basis::basis;
use sml_modules::{EnvGraph, EnvId, NamedValue};
use sml_trees::{Dec, LongName, Name, StrBind, TypBind};
use sml_types::TypeTable;
use std::alloc::Global;
use type_bindings::replicate;
use type_declarations::elab_types;

/// With the built-in structures.
const OPTIONS: Options = Options {
    nobasis: false,
    opaque: false,
};

/// What is in scope of a declaration, and what the declarations before it in its structure bound.
#[derive(Clone, Copy)]
pub struct Bound {
    pub scope: EnvId,
    pub own: EnvId,
}

/// Values in scope as entries of an environment. None of the unit's own is among them.
fn entries_of(
    alloc: Global,
    values: List<NamedInScope<u32>>,
) -> Result<List<NamedValue>, NoMemory> {
    let mut entries = List::new(alloc);
    for value in values.into_vec() {
        let NamedInScope { name, entry } = value;
        match entry {
            ValueInScope::Entry(entry) => entries.add(NamedValue { name, entry })?,
            ValueInScope::Own(_) => return Err(NoMemory),
        }
    }
    Ok(entries)
}

/// The initial basis in scope, and nothing bound yet.
pub fn begin(alloc: Global, g: &mut EnvGraph) -> Result<Bound, NoMemory> {
    g.enter(&Text::from_bytes(alloc, UNIT)?)?;
    let top = basis(alloc, g, OPTIONS)?;
    let scope = g.env_of(top)?;
    let own = g.empty_env()?;
    Ok(Bound { scope, own })
}

/// An environment with the entries of another one before its own.
fn over(g: &mut EnvGraph, env: EnvId, by: EnvId) -> Result<EnvId, NoMemory> {
    if g.has_env(env) && g.has_env(by) {
        g.with_all(env, by)
    } else {
        Err(NoMemory)
    }
}

/// The environment of what a declaration of types made.
fn made_env(alloc: Global, g: &mut EnvGraph, made: Made<u32>) -> Result<EnvId, NoMemory> {
    let Made { types, values, .. } = made;
    let values = entries_of(alloc, values)?;
    g.make_env(&List::new(alloc), types, values)
}

/// What a `type` declaration makes.
fn types(
    alloc: Global,
    g: &EnvGraph,
    t: &mut TypeTable,
    scope: EnvId,
    binds: &[TypBind],
) -> Result<Made<u32>, Fault> {
    let mut scope: Scope<u32> = Scope::new(alloc, scope);
    if scope.is_of(g) {
        elab_types(alloc, g, t, &mut scope, binds)
    } else {
        Err(Fault::NoMemory)
    }
}

/// What a replication makes.
fn replication(
    alloc: Global,
    g: &EnvGraph,
    scope: EnvId,
    name: &Name,
    long: &LongName,
) -> Result<Made<u32>, Fault> {
    let scope: Scope<u32> = Scope::new(alloc, scope);
    if scope.is_of(g) {
        replicate(alloc, g, &scope, name, long)
    } else {
        Err(Fault::NoMemory)
    }
}

/// The environment of a declaration that isn't one of structures; `None` where it is none of these.
fn declared(
    alloc: Global,
    g: &mut EnvGraph,
    t: &mut TypeTable,
    scope: EnvId,
    dec: &Dec,
) -> Result<Option<EnvId>, Fault> {
    if !g.has_env(scope) {
        return Err(Fault::NoMemory);
    }
    let made = match dec {
        Dec::Datatypes(binds, _) => datatypes(g, t, scope, binds)?,
        Dec::Exceptions(binds, _) => exceptions(g, t, scope, &List::new(alloc), binds)?,
        Dec::Types(binds, _) => {
            let made = types(alloc, g, t, scope, binds.as_slice())?;
            made_env(alloc, g, made)?
        }
        Dec::Replication(name, long, _) => {
            let made = replication(alloc, g, scope, name, long)?;
            made_env(alloc, g, made)?
        }
        _ => return Ok(None),
    };
    Ok(Some(made))
}

/// What is in scope and bound behind what a declaration made.
fn behind(g: &mut EnvGraph, before: Bound, made: EnvId) -> Result<Bound, NoMemory> {
    Ok(Bound {
        scope: over(g, before.scope, made)?,
        own: over(g, before.own, made)?,
    })
}

/// The same behind declarations of which none is one of structures.
fn core_decs(
    alloc: Global,
    g: &mut EnvGraph,
    t: &mut TypeTable,
    before: Bound,
    decs: &[Dec],
) -> Result<Option<Bound>, Fault> {
    let mut bound = before;
    for dec in decs {
        match declared(alloc, g, t, bound.scope, dec)? {
            Some(made) => bound = behind(g, bound, made)?,
            None => return Ok(None),
        }
    }
    Ok(Some(bound))
}

/// The environment of a structure.
fn structure(
    alloc: Global,
    g: &mut EnvGraph,
    t: &mut TypeTable,
    scope: EnvId,
    bind: &StrBind,
) -> Result<Option<EnvId>, Fault> {
    let own = g.empty_env()?;
    let Some(Dec::Sequence(decs, _)) = body_of(&bind.body) else {
        return Ok(None);
    };
    match core_decs(alloc, g, t, Bound { scope, own }, decs.as_slice())? {
        Some(bound) => Ok(Some(bound.own)),
        None => Ok(None),
    }
}

/// An environment with a structure under a name.
fn with_structure(
    g: &mut EnvGraph,
    env: EnvId,
    name: &Name,
    structure: EnvId,
) -> Result<EnvId, NoMemory> {
    if g.has_env(env) && g.has_env(structure) {
        g.with_structure(env, &name.text, structure)
    } else {
        Err(NoMemory)
    }
}

/// The environment of structures. Each is elaborated in what is in scope before all.
fn structures(
    alloc: Global,
    g: &mut EnvGraph,
    t: &mut TypeTable,
    scope: EnvId,
    binds: &[StrBind],
) -> Result<Option<EnvId>, Fault> {
    let mut made = g.empty_env()?;
    for bind in binds {
        match structure(alloc, g, t, scope, bind)? {
            Some(env) => made = with_structure(g, made, &bind.name, env)?,
            None => return Ok(None),
        }
    }
    Ok(Some(made))
}

/// What is in scope and bound behind declarations. `None` where one is of another kind.
pub fn elaborate(
    alloc: Global,
    g: &mut EnvGraph,
    t: &mut TypeTable,
    before: Bound,
    decs: &[Dec],
) -> Result<Option<Bound>, Fault> {
    let mut bound = before;
    for dec in decs {
        let made = match dec {
            Dec::Structures(binds, _) => structures(alloc, g, t, bound.scope, binds.as_slice())?,
            _ => declared(alloc, g, t, bound.scope, dec)?,
        };
        match made {
            Some(made) => bound = behind(g, bound, made)?,
            None => return Ok(None),
        }
    }
    Ok(Some(bound))
}
