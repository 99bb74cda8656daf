//! Structures that are specified, and signatures that are included.

ghost use Rattle.std.specs.Prelude.{◌≡◌, ◌++◌, [], IfOk, OnOk};
ghost use Rattle.semantic_objects.specs.declared.entry.ValueEntry.{ValueEntry};
ghost use Rattle.semantic_objects.specs.Environments.{empty_env, modified_by};
ghost use Rattle.sml_modules.specs.Graphs.{env_at, signature_of, HasEnv, HasEnvs, HasSigParts};
ghost use Rattle.static_semantics.specs.Inferring.{Scope as Inner};
ghost use Rattle.core_scopes.specs.Scopes.{AreEnvs, IsScopeOf};
ghost use Rattle.core_scopes.specs.Marks.{env_of_made};
ghost use Rattle.type_phrases.specs.Inferred.{Answers};
ghost use Rattle.signature_specs.specs.Specs.{signature_so_far, IsFrontOf};
ghost use Rattle.signature_parts.specs.Ending.{structure_specified, included};
ghost use Rattle.signature_parts.specs.Steps.{OpensNameless};

use cm_base::{Fault, List, NoMemory, Text};
use core_scopes::{Made, Scope};
use datatype_specs::specify_made;
use open_declarations::elab_open;
use semantic_objects::TyName;
use signature_specs::{Specified, check_new};
use sml_modules::{EnvGraph, EnvId, SigParts};
use sml_trees::{At, LongName, Name};
use std::alloc::Global;

/// How many type names a signature may bind.
pub(crate) const MOST_NAMES: usize = 1_048_576;

/// Adds type names behind others.
fn append(bound: &mut List<TyName>, names: List<TyName>) -> Result<(), NoMemory>
    ensures { OnOk result (bound.new ≡ bound.old ++ names) }
{
    for name in names.into_vec() {
        bound.add(name)?;
    }
    Ok(())
}

/// Adds type names to those that a signature binds. More than 1,048,576 are refused as want of memory is, before they
/// are added.
fn add_names(made: &mut Specified, names: List<TyName>) -> Result<(), NoMemory>
    ensures { OnOk result (made.new ≡ record made.old { bound = made.old.bound ++ names }) }
{
    if names.len() > MOST_NAMES || made.bound.len() > MOST_NAMES - names.len() {
        return Err(NoMemory);
    }
    append(&mut made.bound, names)
}

/// Specifies a structure with an open signature: 40 at its name where a structure has it already. The signature that is
/// made binds the names of the structure's too: it may bind 1,048,576, and more are refused as want of memory is. A
/// diagnostic leaves the signature as it was. The Definition of Standard ML (Revised), rules 74 and 84.
pub fn specify_structure(
    alloc: Global,
    g: &EnvGraph,
    made: &mut Specified,
    name: &Name,
    sig: SigParts,
) -> Result<(), Fault>
    requires { HasSigParts g.now sig }
    ensures infers { (inner : Inner) → inner.home ≡ g.now.home
        → Answers (structure_specified inner name.now (signature_of g.now sig) (signature_so_far g.now made.old))
        (λ u. signature_so_far g.now made.new) result }
    ensures front { OnOk result (IsFrontOf made.old made.new) }
    ensures envs { AreEnvs g.now made.old.structures → OnOk result (AreEnvs g.now made.new.structures) }
{
    check_new(alloc, g, &made.structures, name)?;
    let text = name.text.copy()?;
    let SigParts { bound, env } = sig;
    made.structures.bind(text, env)?;
    add_names(made, bound)?;
    Ok(())
}

/// A name without a text, which no source has.
fn nameless(alloc: Global) -> Result<Text, NoMemory>
    ensures { IfOk result (λ name. name ≡ []) }
{
    Text::from_bytes(alloc, b"")
}

/// Opens the one structure of a scope that has no name.
fn open_nameless(alloc: Global, g: &EnvGraph, scope: &Scope<()>) -> Result<Made<()>, NoMemory>
    requires { IsScopeOf g.now scope.now }
    ensures is { IfOk result (λ made. OpensNameless g.now scope.now made) }
    ensures there { IfOk result (λ made. HasEnvs g.now made.structures) }
{
    let mut parts = List::new(alloc);
    parts.add(nameless(alloc)?)?;
    let mut longs = List::new(alloc);
    longs.add(LongName {
        parts,
        line: 1,
        col: 1,
    })?;
    match elab_open(alloc, g, scope, longs.as_slice()) {
        Ok(made) => Ok(made),
        Err(_) => Err(NoMemory),
    }
}

/// All entries of an environment: what an `open` of a structure with it binds.
fn entries_of(alloc: Global, g: &EnvGraph, env: EnvId) -> Result<Made<()>, NoMemory>
    requires { HasEnv g.now env }
    ensures is { IfOk result (λ made. (read : Unit {0} → ValueEntry)
        → env_of_made g.now read made ≡ modified_by empty_env (env_at g.now env)) }
    ensures there { IfOk result (λ made. HasEnvs g.now made.structures) }
{
    let mut scope: Scope<()> = Scope::new(alloc, env);
    scope.bind_structure(nameless(alloc)?, env)?;
    open_nameless(alloc, g, &scope)
}

/// Specifies all of an open signature: 40 at a place where a name of it is specified already. The signature that is made
/// binds its names too, and may bind 1,048,576. A diagnostic leaves the signature as it was.
/// The Definition of Standard ML (Revised), rule 75.
pub fn include(
    alloc: Global,
    g: &EnvGraph,
    made: &mut Specified,
    at: At,
    sig: SigParts,
) -> Result<(), Fault>
    requires { HasSigParts g.now sig }
    ensures infers { (inner : Inner) → inner.home ≡ g.now.home
        → Answers (included inner at (signature_of g.now sig) (signature_so_far g.now made.old))
        (λ u. signature_so_far g.now made.new) result }
    ensures front { OnOk result (IsFrontOf made.old made.new) }
    ensures envs { AreEnvs g.now made.old.structures → OnOk result (AreEnvs g.now made.new.structures) }
{
    let SigParts { bound, env } = sig;
    let part = entries_of(alloc, g, env)?;
    specify_made(alloc, g, made, at, part)?;
    add_names(made, bound)?;
    Ok(())
}
