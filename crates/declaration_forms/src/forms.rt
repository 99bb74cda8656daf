//! Declarations without parts in a scope, each with the check of its sizes.

ghost use Rattle.std.specs.Prelude.{map};
ghost use Rattle.bare_phrases.specs.Phrases.{DecPhrase};
ghost use Rattle.bare_phrases.specs.PhraseOf.{dat_phrase, ex_phrase, typ_phrase};
ghost use Rattle.pattern_elab.specs.Scopes.{IsCoreScope};
ghost use Rattle.core_rules.specs.Moments.{moment};
ghost use Rattle.core_rules.specs.Declarations.{IsDeclared};

use crate::ends::check_made;
use cm_base::Fault;
use core_scopes::Made;
use datatype_declarations::elab_datatypes;
use exception_bindings::elab_exceptions;
use open_declarations::elab_open;
use pattern_elab::{CoreScope, OwnVariable};
use sml_modules::EnvGraph;
use sml_trees::{At, DatBind, ExBind, LongName, Name, TypBind};
use sml_types::TypeTable;
use std::alloc::Global;
use type_bindings::replicate;
use type_declarations::elab_types;

/// A `type` declaration. The Definition of Standard ML (Revised), rule 16.
pub fn declare_types(
    alloc: Global,
    g: &EnvGraph,
    t: &mut TypeTable,
    scope: &mut CoreScope,
    binds: &[TypBind],
    at: At,
) -> Result<Made<OwnVariable>, Fault>
    requires { IsCoreScope g.now t.old scope.old }
    ensures { IsDeclared (moment g.now t.old scope.old) (DecPhrase.Types (map typ_phrase binds.now) at)
        (moment g.now t.new scope.new) result }
{
    let made = elab_types(alloc, g, t, scope, binds)?;
    check_made(alloc, g, t, at, made)
}

/// A `datatype` declaration. The Definition of Standard ML (Revised), rule 17.
pub fn declare_datatypes(
    alloc: Global,
    g: &mut EnvGraph,
    t: &mut TypeTable,
    scope: &mut CoreScope,
    binds: &[DatBind],
    at: At,
) -> Result<Made<OwnVariable>, Fault>
    requires { IsCoreScope g.old t.old scope.old }
    ensures { IsDeclared (moment g.old t.old scope.old) (DecPhrase.Datatypes (map dat_phrase binds.now) at)
        (moment g.new t.new scope.new) result }
{
    let made = elab_datatypes(alloc, g, t, scope, binds)?;
    check_made(alloc, g, t, at, made)
}

/// The replication of a datatype. The Definition of Standard ML (Revised), rule 18.
pub fn declare_replica(
    alloc: Global,
    g: &EnvGraph,
    t: &mut TypeTable,
    scope: &CoreScope,
    name: &Name,
    long: &LongName,
    at: At,
) -> Result<Made<OwnVariable>, Fault>
    requires { IsCoreScope g.now t.old scope.now }
    ensures { IsDeclared (moment g.now t.old scope.now) (DecPhrase.Replication name.now long.now at)
        (moment g.now t.new scope.now) result }
{
    let made = replicate(alloc, g, scope, name, long)?;
    check_made(alloc, g, t, at, made)
}

/// An `exception` declaration. The Definition of Standard ML (Revised), rule 20.
pub fn declare_exceptions(
    alloc: Global,
    g: &EnvGraph,
    t: &mut TypeTable,
    scope: &CoreScope,
    binds: &[ExBind],
    at: At,
) -> Result<Made<OwnVariable>, Fault>
    requires { IsCoreScope g.now t.old scope.now }
    ensures { IsDeclared (moment g.now t.old scope.now) (DecPhrase.Exceptions (map ex_phrase binds.now) at)
        (moment g.now t.new scope.now) result }
{
    let made = elab_exceptions(alloc, g, t, scope, binds)?;
    check_made(alloc, g, t, at, made)
}

/// An `open` declaration. The Definition of Standard ML (Revised), rule 22.
pub fn declare_open(
    alloc: Global,
    g: &EnvGraph,
    t: &mut TypeTable,
    scope: &CoreScope,
    longs: &[LongName],
    at: At,
) -> Result<Made<OwnVariable>, Fault>
    requires { IsCoreScope g.now t.old scope.now }
    ensures { IsDeclared (moment g.now t.old scope.now) (DecPhrase.Open longs.now at) (moment g.now t.new scope.now)
        result }
{
    let made = elab_open(alloc, g, scope, longs)?;
    check_made(alloc, g, t, at, made)
}
