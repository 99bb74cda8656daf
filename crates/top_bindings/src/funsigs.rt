//! Signatures of functors.

ghost use Rattle.std.specs.Prelude.{map};
ghost use Rattle.sml_modules.specs.Graphs.{env_at, HasEnv, HasSigParts};
ghost use Rattle.module_semantics.specs.SigPhrases.{sig_phrase};
ghost use Rattle.unit_semantics.specs.UnitPhrases.{funsig_phrase};
ghost use Rattle.module_scopes.specs.Tops.{AreFunctors, IsTopScope};
ghost use Rattle.structure_elab.specs.Moments.{moment};
ghost use Rattle.top_bindings.specs.Ready.{IsReadyTop};
ghost use Rattle.top_bindings.specs.Bindings.{IsFunsigBound, IsFunsigRow, AreFunsigRows, IsResult, IsSignatureWith};

use crate::params::enter;
use crate::ready::is_ready_top;
use cm_base::Fault;
use functor_closing::make_functor;
use module_scopes::{TopScope, check_functor};
use name_trails::NameTrail;
use signature_sealing::open_signature;
use sml_modules::{EnvGraph, EnvId, FunId, SigId, SigParts};
use sml_trees::{FunsigBind, Name, SigExp};
use sml_types::TypeTable;
use std::alloc::Global;
use structure_elab::{leave, signature_in};

/// A signature expression under a functor's parameter, which is left again.
fn signature_with_param(
    alloc: Global,
    g: &mut EnvGraph,
    t: &mut TypeTable,
    top: &mut TopScope,
    param: &Name,
    env: EnvId,
    sig: &SigExp,
) -> Result<SigId, Fault>
    requires there { IsTopScope g.old top.old }
    requires env { HasEnv g.old env }
    ensures { IsSignatureWith (moment g.old t.old top.old) param.now (env_at g.old env) (sig_phrase sig.now)
        (moment g.new t.new top.new) result }
{
    let before = top.core.mark();
    enter(top, &param.text, env)?;
    let made = signature_in(alloc, g, t, top, sig)?;
    leave(top, before);
    Ok(made)
}

/// The signature of functors of a parameter, which is open inside, and of the result's signature.
fn elab_result(
    alloc: Global,
    g: &mut EnvGraph,
    t: &mut TypeTable,
    top: &mut TopScope,
    bind: &FunsigBind,
    param: &SigParts,
    inside: &SigParts,
) -> Result<FunId, Fault>
    requires there { IsTopScope g.old top.old }
    requires param { HasSigParts g.old param.now }
    requires inside { HasSigParts g.old inside.now }
    ensures { IsResult (moment g.old t.old top.old) (funsig_phrase bind.now) param.now inside.now
        (moment g.new t.new top.new) result }
{
    let sig = signature_with_param(alloc, g, t, top, &bind.param, inside.env, &bind.result_sig)?;
    let result = g.read_sig(sig)?;
    let fun = make_functor(alloc, g, param, inside, &result.bound, result.env)?;
    Ok(fun)
}

/// A signature of functors.
fn elab_funsig(
    alloc: Global,
    g: &mut EnvGraph,
    t: &mut TypeTable,
    top: &mut TopScope,
    bind: &FunsigBind,
) -> Result<FunId, Fault>
    requires { IsReadyTop (moment g.old t.old top.old) }
    ensures { IsFunsigBound (moment g.old t.old top.old) (funsig_phrase bind.now) (moment g.new t.new top.new) result }
{
    let sig = signature_in(alloc, g, t, top, &bind.param_sig)?;
    let param = g.read_sig(sig)?;
    let inside = open_signature(g, sig)?;
    elab_result(alloc, g, t, top, bind, &param, &inside)
}

/// One signature of functors behind others: 40 at a name that an earlier one has.
fn bind_funsig(
    alloc: Global,
    g: &mut EnvGraph,
    t: &mut TypeTable,
    top: &mut TopScope,
    bind: &FunsigBind,
    made: &mut NameTrail<FunId>,
) -> Result<(), Fault>
    requires ready { IsReadyTop (moment g.old t.old top.old) }
    requires made { AreFunctors g.old made.old }
    ensures { IsFunsigRow (moment g.old t.old top.old) (funsig_phrase bind.now) made.old made.new
        (moment g.new t.new top.new) result }
{
    check_functor(alloc, g, made, &bind.name)?;
    let fun = elab_funsig(alloc, g, t, top, bind)?;
    made.bind(bind.name.text.copy()?, fun)?;
    Ok(())
}

/// The signatures of functors of a declaration behind others, each in what is in scope before the declaration, which is
/// left as it was; after a refusal it is of no use. The first of 30, 33, 35, 37 and 40 is answered.
pub fn elab_funsigs(
    alloc: Global,
    g: &mut EnvGraph,
    t: &mut TypeTable,
    top: &mut TopScope,
    binds: &[FunsigBind],
    made: &mut NameTrail<FunId>,
) -> Result<(), Fault>
    requires ready { IsReadyTop (moment g.old t.old top.old) }
    requires made { AreFunctors g.old made.old }
    ensures { AreFunsigRows (moment g.old t.old top.old) (map funsig_phrase binds.now) made.old made.new
        (moment g.new t.new top.new) result }
{
    for bind in binds {
        is_ready_top(g, t, top);
        bind_funsig(alloc, g, t, top, bind, made)?;
    }
    Ok(())
}
