//! Declarations in a scope.

ghost use Rattle.std.specs.Prelude.{map};
ghost use Rattle.bare_phrases.specs.PhraseOf.{dec_phrase, dec_phrases};
ghost use Rattle.core_scopes.specs.Marks.{IsFrontOf};
ghost use Rattle.core_rules.specs.Moments.{moment};
ghost use Rattle.core_rules.specs.Ready.{IsReadyAt};
ghost use Rattle.core_rules.specs.Declarations.{IsDeclared};
ghost use Rattle.core_rules.specs.Joined.{IsNothing, AreDeclared, AreEntered};
ghost use Rattle.core_elab.specs.Inside.{Enters, IsShown};

use crate::entering::enter_declared;
use crate::ready::is_ready;
use crate::val::elab_val;
use cm_base::Fault;
use core_rules::{made_where, nothing_made};
use core_scopes::Made;
use declaration_forms::{
    check_made, declare_datatypes, declare_exceptions, declare_open, declare_replica, declare_types,
};
use pattern_elab::{CoreScope, OwnVariable};
use sml_modules::EnvGraph;
use sml_trees::Dec;
use sml_types::TypeTable;
use std::alloc::Global;

/// What a declaration binds in a scope, which is left as it was. The first of 30 to 35, 37, 38, 40 and 41 is answered, and
/// then some of it may be known. Declarations of structures are answered as want of memory is. The Definition of Standard
/// ML (Revised), rules 15 to 24.
#[cycle(elab_in_scope)]
pub(crate) fn elab_declared(
    alloc: Global,
    g: &mut EnvGraph,
    t: &mut TypeTable,
    scope: &mut CoreScope,
    dec: &Dec,
) -> Result<Made<OwnVariable>, Fault>
    requires { IsReadyAt (moment g.old t.old scope.old) }
    ensures { IsDeclared (moment g.old t.old scope.old) (dec_phrase dec.now) (moment g.new t.new scope.new) result }
{
    match dec {
        Dec::Val(_, _, _, _) => elab_val(alloc, g, t, scope, dec),
        Dec::Types(binds, at) => declare_types(alloc, g, t, scope, binds.as_slice(), *at),
        Dec::Datatypes(binds, at) => declare_datatypes(alloc, g, t, scope, binds.as_slice(), *at),
        Dec::Replication(name, long, at) => { declare_replica(alloc, g, t, scope, name, long, *at) }
        Dec::Exceptions(binds, at) => {
            declare_exceptions(alloc, g, t, scope, binds.as_slice(), *at)
        }
        Dec::Local(_, _, at) => {
            let before = scope.mark();
            let result = elab_shown(alloc, g, t, scope, dec);
            scope.leave(before);
            let made = result?;
            check_made(alloc, g, t, *at, made)
        }
        Dec::Open(longs, at) => declare_open(alloc, g, t, scope, longs.as_slice(), *at),
        Dec::Sequence(decs, _) => elab_sequence(alloc, g, t, scope, decs.as_slice()),
        Dec::Structures(_, _) => Err(Fault::NoMemory),
    }
}

/// The shown declaration of a `local` behind the hidden one. What that made stays in scope. Another declaration is answered
/// as want of memory is.
#[cycle(elab_in_scope)]
fn elab_shown(
    alloc: Global,
    g: &mut EnvGraph,
    t: &mut TypeTable,
    scope: &mut CoreScope,
    dec: &Dec,
) -> Result<Made<OwnVariable>, Fault>
    requires scope { IsReadyAt (moment g.old t.old scope.old) }
    requires front { IsFrontOf scope.old scope.old }
    ensures { IsShown (moment g.old t.old scope.old) (dec_phrase dec.now) (moment g.new t.new scope.new) result }
{
    match dec {
        Dec::Local(hidden, shown, _) => {
            let mut made = nothing_made(alloc);
            elab_entered(alloc, g, t, scope, hidden.get(), &mut made)?;
            is_ready(g, t, scope);
            elab_declared(alloc, g, t, scope, shown.get())
        }
        _ => Err(Fault::NoMemory),
    }
}

/// A declaration that is entered into the scope in which it stands, each of a sequence behind those before it. `all` has
/// nothing before, and what was made behind it.
#[cycle(elab_in_scope)]
pub(crate) fn elab_entered(
    alloc: Global,
    g: &mut EnvGraph,
    t: &mut TypeTable,
    scope: &mut CoreScope,
    dec: &Dec,
    all: &mut Made<OwnVariable>,
) -> Result<(), Fault>
    requires scope { IsReadyAt (moment g.old t.old scope.old) }
    requires front { IsFrontOf scope.old scope.old }
    requires all { IsNothing all.old }
    ensures { Enters (moment g.old t.old scope.old) (dec_phrase dec.now) all.new (moment g.new t.new scope.new) result }
{
    match dec {
        Dec::Sequence(decs, _) => elab_each(alloc, g, t, scope, decs.as_slice(), all),
        _ => {
            let made = elab_declared(alloc, g, t, scope, dec)?;
            enter_declared(alloc, t, scope, all, made, dec)?;
            Ok(())
        }
    }
}

/// Declarations, each under what those before it made, which is left again.
#[cycle(elab_in_scope)]
fn elab_sequence(
    alloc: Global,
    g: &mut EnvGraph,
    t: &mut TypeTable,
    scope: &mut CoreScope,
    decs: &[Dec],
) -> Result<Made<OwnVariable>, Fault>
    requires { IsReadyAt (moment g.old t.old scope.old) }
    ensures { AreDeclared (moment g.old t.old scope.old) (dec_phrases (map dec_phrase decs.now))
        (moment g.new t.new scope.new) result }
{
    let before = scope.mark();
    let mut all = nothing_made(alloc);
    let outcome = elab_each(alloc, g, t, scope, decs, &mut all);
    scope.leave(before);
    made_where(outcome, all)
}

/// Declarations, each of which is entered into the scope of the next one.
#[cycle(elab_in_scope)]
fn elab_each(
    alloc: Global,
    g: &mut EnvGraph,
    t: &mut TypeTable,
    scope: &mut CoreScope,
    decs: &[Dec],
    all: &mut Made<OwnVariable>,
) -> Result<(), Fault>
    requires scope { IsReadyAt (moment g.old t.old scope.old) }
    requires front { IsFrontOf scope.old scope.old }
    requires all { IsNothing all.old }
    ensures { AreEntered (moment g.old t.old scope.old) (dec_phrases (map dec_phrase decs.now)) all.new
        (moment g.new t.new scope.new) result }
{
    for dec in decs {
        is_ready(g, t, scope);
        let made = elab_declared(alloc, g, t, scope, dec)?;
        enter_declared(alloc, t, scope, all, made, dec)?;
        t.is_kept();
    }
    Ok(())
}
