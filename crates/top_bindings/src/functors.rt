//! Functors.

ghost use Rattle.std.specs.Prelude.{map};
ghost use Rattle.bare_phrases.specs.PhraseOf.{str_phrase};
ghost use Rattle.sml_modules.specs.Graphs.{env_at, HasEnv, HasSigParts};
ghost use Rattle.unit_semantics.specs.UnitPhrases.{FunPhrase, fun_phrase, module_phrase};
ghost use Rattle.module_scopes.specs.Tops.{AreFunctors};
ghost use Rattle.structure_elab.specs.Moments.{moment};
ghost use Rattle.top_bindings.specs.Ready.{IsReadyTop, IsReadyWith};
ghost use Rattle.top_bindings.specs.Bindings.{IsBody, IsFunctorBound, IsFunctorRow, AreFunctorRows, IsModuleWith};

use crate::params::enter;
use crate::ready::{is_ready, is_ready_top, is_ready_with};
use cm_base::Fault;
use functor_closing::close_functor;
use known_environments::without_variables;
use module_scopes::{TopScope, check_functor};
use name_trails::NameTrail;
use signature_sealing::open_signature;
use sml_modules::{EnvGraph, EnvId, FunId, SigParts};
use sml_trees::{FunBind, Name, StrExp};
use sml_types::TypeTable;
use std::alloc::Global;
use structure_elab::{elab_str, leave, signature_in};

/// A structure expression under a functor's parameter, which is left again.
fn elab_with_param(
    alloc: Global,
    g: &mut EnvGraph,
    t: &mut TypeTable,
    top: &mut TopScope,
    param: &Name,
    env: EnvId,
    body: &StrExp,
) -> Result<EnvId, Fault>
    requires ready { IsReadyWith (moment g.old t.old top.old) param.now (env_at g.old env) }
    requires env { HasEnv g.old env }
    ensures { IsModuleWith (moment g.old t.old top.old) param.now (env_at g.old env) (module_phrase (str_phrase body.now))
        (moment g.new t.new top.new) result }
{
    let before = top.core.mark();
    enter(top, &param.text, env)?;
    is_ready(g, t, top);
    let made = elab_str(alloc, g, t, top, body)?;
    leave(top, before);
    Ok(made)
}

/// The functor of a parameter, which is open inside, and of its body, which is elaborated once: 42 at its name where a
/// type variable is left. The Definition of Standard ML (Revised), rule 86.
fn elab_body(
    alloc: Global,
    g: &mut EnvGraph,
    t: &mut TypeTable,
    top: &mut TopScope,
    bind: &FunBind,
    param: &SigParts,
    inside: &SigParts,
) -> Result<FunId, Fault>
    requires ready { IsReadyWith (moment g.old t.old top.old) bind.now.param (env_at g.old inside.now.env) }
    requires param { HasSigParts g.old param.now }
    requires inside { HasSigParts g.old inside.now }
    ensures { IsBody (moment g.old t.old top.old) (fun_phrase bind.now) param.now inside.now (moment g.new t.new top.new)
        result }
{
    let number = g.made();
    let made = elab_with_param(alloc, g, t, top, &bind.param, inside.env, &bind.body)?;
    let known = without_variables(alloc, g, t, &bind.name, made)?;
    let fun = close_functor(alloc, g, param, inside, number, known)?;
    Ok(fun)
}

/// A functor. The Definition of Standard ML (Revised), rule 86.
fn elab_functor(
    alloc: Global,
    g: &mut EnvGraph,
    t: &mut TypeTable,
    top: &mut TopScope,
    bind: &FunBind,
) -> Result<FunId, Fault>
    requires { IsReadyTop (moment g.old t.old top.old) }
    ensures { IsFunctorBound (moment g.old t.old top.old) (fun_phrase bind.now) (moment g.new t.new top.new) result }
{
    let sig = signature_in(alloc, g, t, top, &bind.param_sig)?;
    let param = g.read_sig(sig)?;
    let inside = open_signature(g, sig)?;
    is_ready_with(g, t, top, &bind.param, inside.env);
    elab_body(alloc, g, t, top, bind, &param, &inside)
}

/// One functor behind others: 40 at a name that an earlier one has.
fn bind_functor(
    alloc: Global,
    g: &mut EnvGraph,
    t: &mut TypeTable,
    top: &mut TopScope,
    bind: &FunBind,
    made: &mut NameTrail<FunId>,
) -> Result<(), Fault>
    requires ready { IsReadyTop (moment g.old t.old top.old) }
    requires made { AreFunctors g.old made.old }
    ensures { IsFunctorRow (moment g.old t.old top.old) (fun_phrase bind.now) made.old made.new
        (moment g.new t.new top.new) result }
{
    check_functor(alloc, g, made, &bind.name)?;
    let fun = elab_functor(alloc, g, t, top, bind)?;
    made.bind(bind.name.text.copy()?, fun)?;
    Ok(())
}

/// The functors of a declaration behind others, each in what is in scope before the declaration, which is left as it was;
/// after a refusal it is of no use. The first of 30 to 38 and 40 to 42 is answered, and then some of it may be known.
/// The Definition of Standard ML (Revised), rules 85 and 86.
pub fn elab_functors(
    alloc: Global,
    g: &mut EnvGraph,
    t: &mut TypeTable,
    top: &mut TopScope,
    binds: &[FunBind],
    made: &mut NameTrail<FunId>,
) -> Result<(), Fault>
    requires ready { IsReadyTop (moment g.old t.old top.old) }
    requires made { AreFunctors g.old made.old }
    ensures { AreFunctorRows (moment g.old t.old top.old) (map fun_phrase binds.now) made.old made.new
        (moment g.new t.new top.new) result }
{
    for bind in binds {
        is_ready_top(g, t, top);
        bind_functor(alloc, g, t, top, bind, made)?;
    }
    Ok(())
}
