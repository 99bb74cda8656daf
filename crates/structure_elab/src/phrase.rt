//! Structure expressions and declarations, one in another.

ghost use Rattle.std.specs.Prelude.{map};
ghost use Rattle.bare_phrases.specs.PhraseOf.{dec_phrase, dec_phrases, str_phrase, str_bind_phrase, str_binds};
ghost use Rattle.core_rules.specs.Joined.{IsNothing};
ghost use Rattle.core_scopes.specs.Scopes.{AreEnvs};
ghost use Rattle.unit_semantics.specs.UnitPhrases.{module_phrase, module_dec, module_decs, module_binds};
ghost use Rattle.structure_elab.specs.Moments.{moment, IsOver};
ghost use Rattle.structure_elab.specs.Ready.{IsReadyAt, IsReadyBehind};
ghost use Rattle.structure_elab.specs.Phrases.{IsModule, IsModuleBehind, IsStruct, IsDeclared, IsDeclaredBehind, AreDeclared, AreStructures, AreEntered, IsBind, AreBinds, bind_phrase};

use crate::ends::end_structures;
use crate::places::place_of_str;
use crate::plain::declare_core;
use crate::ready::{is_ready, is_ready_behind};
use crate::scoping::{enter, enter_next, leave};
use crate::signatures::{constrain, seal};
use cm_base::Fault;
use core_rules::nothing_made;
use core_scopes::Made;
use declaration_forms::{check_made, make_declared};
use module_rules::apply_functor;
use module_scopes::{TopScope, bind_structure, check_structure, named_functor, named_structure};
use name_trails::NameTrail;
use pattern_elab::OwnVariable;
use sml_modules::{EnvGraph, EnvId};
use sml_trees::{At, Dec, StrBind, StrExp};
use sml_types::TypeTable;
use std::alloc::Global;

/// What a structure expression stands for in what is in scope, which is left as it was; after a refusal it is of no use.
/// The first of 30 to 38, 40 and 41 is answered, and then some of it may be known.
/// The Definition of Standard ML (Revised), rules 50 to 55.
#[cycle(elab_str)]
pub fn elab_str(
    alloc: Global,
    g: &mut EnvGraph,
    t: &mut TypeTable,
    top: &mut TopScope,
    str: &StrExp,
) -> Result<EnvId, Fault>
    requires { IsReadyAt (moment g.old t.old top.old) }
    ensures { IsModule (moment g.old t.old top.old) (module_phrase (str_phrase str.now)) (moment g.new t.new top.new)
        result }
{
    match str {
        StrExp::Struct(dec, _) => elab_struct(alloc, g, t, top, dec.get()),
        StrExp::Named(long, _) => named_structure(alloc, g, &top.core, long),
        StrExp::Transparent(inner, sig, _) => {
            let env = elab_str(alloc, g, t, top, inner.get())?;
            constrain(alloc, g, t, top, place_of_str(inner.get()), env, sig)
        }
        StrExp::Opaque(inner, sig, _) => {
            let env = elab_str(alloc, g, t, top, inner.get())?;
            seal(alloc, g, t, top, place_of_str(inner.get()), env, sig)
        }
        StrExp::Functor(name, argument, _) => {
            let fun = named_functor(alloc, g, top, name)?;
            let env = elab_str(alloc, g, t, top, argument.get())?;
            apply_functor(g, t, place_of_str(argument.get()), fun, env)
        }
        StrExp::Within(dec, body, _) => {
            let made = elab_str_dec(alloc, g, t, top, dec.get())?;
            is_ready_behind(g, t, top, &made);
            elab_within(alloc, g, t, top, made, body.get())
        }
    }
}

/// The environment that a declaration makes.
#[cycle(elab_str)]
fn elab_struct(
    alloc: Global,
    g: &mut EnvGraph,
    t: &mut TypeTable,
    top: &mut TopScope,
    dec: &Dec,
) -> Result<EnvId, Fault>
    requires { IsReadyAt (moment g.old t.old top.old) }
    ensures { IsStruct (moment g.old t.old top.old) (module_dec (dec_phrase dec.now)) (moment g.new t.new top.new)
        result }
{
    let made = elab_str_dec(alloc, g, t, top, dec)?;
    let env = make_declared(alloc, g, made)?;
    Ok(env)
}

/// A structure expression under what a declaration made, which is left again.
#[cycle(elab_str)]
fn elab_within(
    alloc: Global,
    g: &mut EnvGraph,
    t: &mut TypeTable,
    top: &mut TopScope,
    made: Made<OwnVariable>,
    str: &StrExp,
) -> Result<EnvId, Fault>
    requires { IsReadyBehind (moment g.old t.old top.old) made }
    ensures { IsModuleBehind (moment g.old t.old top.old) made (module_phrase (str_phrase str.now))
        (moment g.new t.new top.new) result }
{
    let before = top.core.mark();
    enter(top, made)?;
    is_ready(g, t, top);
    let env = elab_str(alloc, g, t, top, str)?;
    leave(top, before);
    Ok(env)
}

/// What a declaration in a structure makes in what is in scope, which is left as it was; after a refusal it is of no use.
/// The first of 30 to 38, 40 and 41 is answered, and then some of it may be known. No environment is made of what
/// declarations make. The Definition of Standard ML (Revised), rules 56 to 61.
#[cycle(elab_str)]
pub fn elab_str_dec(
    alloc: Global,
    g: &mut EnvGraph,
    t: &mut TypeTable,
    top: &mut TopScope,
    dec: &Dec,
) -> Result<Made<OwnVariable>, Fault>
    requires { IsReadyAt (moment g.old t.old top.old) }
    ensures { IsDeclared (moment g.old t.old top.old) (module_dec (dec_phrase dec.now)) (moment g.new t.new top.new)
        result }
{
    match dec {
        Dec::Val(_, _, _, _) => declare_core(alloc, g, t, top, dec),
        Dec::Types(_, _) => declare_core(alloc, g, t, top, dec),
        Dec::Datatypes(_, _) => declare_core(alloc, g, t, top, dec),
        Dec::Replication(_, _, _) => declare_core(alloc, g, t, top, dec),
        Dec::Exceptions(_, _) => declare_core(alloc, g, t, top, dec),
        Dec::Local(hidden, shown, at) => {
            let before = elab_str_dec(alloc, g, t, top, hidden.get())?;
            is_ready_behind(g, t, top, &before);
            let made = elab_shown(alloc, g, t, top, before, shown.get())?;
            check_made(alloc, g, t, *at, made)
        }
        Dec::Open(_, _) => declare_core(alloc, g, t, top, dec),
        Dec::Sequence(decs, _) => elab_sequence(alloc, g, t, top, decs.as_slice()),
        Dec::Structures(binds, at) => elab_structures(alloc, g, t, top, binds.as_slice(), *at),
    }
}

/// A declaration under what the one before it made, which is left again.
#[cycle(elab_str)]
fn elab_shown(
    alloc: Global,
    g: &mut EnvGraph,
    t: &mut TypeTable,
    top: &mut TopScope,
    made: Made<OwnVariable>,
    dec: &Dec,
) -> Result<Made<OwnVariable>, Fault>
    requires { IsReadyBehind (moment g.old t.old top.old) made }
    ensures { IsDeclaredBehind (moment g.old t.old top.old) made (module_dec (dec_phrase dec.now))
        (moment g.new t.new top.new) result }
{
    let before = top.core.mark();
    enter(top, made)?;
    is_ready(g, t, top);
    let shown = elab_str_dec(alloc, g, t, top, dec)?;
    leave(top, before);
    Ok(shown)
}

/// Declarations, each under what those before it made, which is left again.
#[cycle(elab_str)]
fn elab_sequence(
    alloc: Global,
    g: &mut EnvGraph,
    t: &mut TypeTable,
    top: &mut TopScope,
    decs: &[Dec],
) -> Result<Made<OwnVariable>, Fault>
    requires { IsReadyAt (moment g.old t.old top.old) }
    ensures { AreDeclared (moment g.old t.old top.old) (module_decs (dec_phrases (map dec_phrase decs.now)))
        (moment g.new t.new top.new) result }
{
    let before = top.core.mark();
    let mut all = nothing_made(alloc);
    elab_each(alloc, g, t, top, decs, &mut all)?;
    leave(top, before);
    Ok(all)
}

/// Declarations, each of which is entered into the scope of the next one.
#[cycle(elab_str)]
fn elab_each(
    alloc: Global,
    g: &mut EnvGraph,
    t: &mut TypeTable,
    top: &mut TopScope,
    decs: &[Dec],
    all: &mut Made<OwnVariable>,
) -> Result<(), Fault>
    requires ready { IsReadyAt (moment g.old t.old top.old) }
    requires over { IsOver top.old top.old }
    requires all { IsNothing all.old }
    ensures { AreEntered (moment g.old t.old top.old) (module_decs (dec_phrases (map dec_phrase decs.now))) all.new
        (moment g.new t.new top.new) result }
{
    for dec in decs {
        is_ready(g, t, top);
        let made = elab_str_dec(alloc, g, t, top, dec)?;
        t.is_kept();
        enter_next(alloc, top, all, made)?;
    }
    Ok(())
}

/// A declaration of structures, all in the scope before it.
#[cycle(elab_str)]
fn elab_structures(
    alloc: Global,
    g: &mut EnvGraph,
    t: &mut TypeTable,
    top: &mut TopScope,
    binds: &[StrBind],
    at: At,
) -> Result<Made<OwnVariable>, Fault>
    requires { IsReadyAt (moment g.old t.old top.old) }
    ensures { AreStructures (moment g.old t.old top.old) (module_binds (str_binds (map str_bind_phrase binds.now))) at
        (moment g.new t.new top.new) result }
{
    let mut made = NameTrail::new(alloc);
    elab_binds(alloc, g, t, top, binds, &mut made)?;
    end_structures(alloc, g, t, at, &made)
}

/// The bindings of such a declaration.
#[cycle(elab_str)]
fn elab_binds(
    alloc: Global,
    g: &mut EnvGraph,
    t: &mut TypeTable,
    top: &mut TopScope,
    binds: &[StrBind],
    made: &mut NameTrail<EnvId>,
) -> Result<(), Fault>
    requires ready { IsReadyAt (moment g.old t.old top.old) }
    requires envs { AreEnvs g.old made.old }
    ensures { AreBinds (moment g.old t.old top.old) (module_binds (str_binds (map str_bind_phrase binds.now))) made.old
        made.new (moment g.new t.new top.new) result }
{
    for bind in binds {
        is_ready(g, t, top);
        elab_bind(alloc, g, t, top, bind, made)?;
    }
    Ok(())
}

/// One binding: 40 at a name that an earlier one has.
#[cycle(elab_str)]
fn elab_bind(
    alloc: Global,
    g: &mut EnvGraph,
    t: &mut TypeTable,
    top: &mut TopScope,
    bind: &StrBind,
    made: &mut NameTrail<EnvId>,
) -> Result<(), Fault>
    requires ready { IsReadyAt (moment g.old t.old top.old) }
    requires envs { AreEnvs g.old made.old }
    ensures { IsBind (moment g.old t.old top.old) (bind_phrase bind.now) made.old made.new (moment g.new t.new top.new)
        result }
{
    check_structure(alloc, g, made, &bind.name)?;
    let env = elab_str(alloc, g, t, top, &bind.body)?;
    bind_structure(made, &bind.name.text, env)?;
    Ok(())
}
