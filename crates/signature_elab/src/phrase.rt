//! Signature expressions and specifications, one in another.

ghost use Rattle.std.specs.Prelude.{map};
ghost use Rattle.core_scopes.specs.Scopes.{AreEnvs};
ghost use Rattle.module_semantics.specs.SigPhrases.{sig_binds, sig_phrase, spec_phrase, spec_phrases};
ghost use Rattle.module_semantics.specs.SignatureInference.{infer_sig, infer_spec, infer_specs, infer_structure_specs};
ghost use Rattle.module_scopes.specs.Tops.{IsTopScope};
ghost use Rattle.signature_parts.specs.Ending.{included};
ghost use Rattle.signature_parts.specs.Growing.{IsListed, IsOpenSig, IsSpecified};
ghost use Rattle.signature_elab.specs.Phrases.{bind_phrase, infer_added, infer_structure, signatures_seen, IsReadyIn, KeepsNames};

use crate::leaves::{datatypes, exceptions, replication, types, vals};
use crate::ready::{is_ready, is_ready_in};
use cm_base::Fault;
use module_scopes::TopScope;
use signature_parts::{bind_since, end_signature, include, mark, specify_structure, use_signature};
use signature_specs::Specified;
use sml_modules::{EnvGraph, SigParts};
use sml_trees::{At, SigBind, SigExp, Spec};
use sml_types::TypeTable;
use std::alloc::Global;
use where_types::elab_where;

/// A signature expression under what is in scope: the open signature that it stands for, whose flexible names are names
/// of the unit. The scope is left as it was; after a refusal it is of no use.
/// The Definition of Standard ML (Revised), rules 62 to 64.
#[cycle(elab_open_sig)]
pub(crate) fn elab_open_sig(
    alloc: Global,
    g: &mut EnvGraph,
    t: &mut TypeTable,
    top: &mut TopScope,
    sig: &SigExp,
) -> Result<SigParts, Fault>
    requires { IsTopScope g.old top.old }
    ensures phrase { IsOpenSig g.old g.new t.old t.new top.old.core top.new.core
        (λ sc st. infer_sig (signatures_seen g.old top.old) sc (sig_phrase sig.now) st) result }
    ensures names { KeepsNames top.old top.new }
{
    match sig {
        SigExp::Sig(spec, _) => {
            let before = top.core.mark();
            let mut made = Specified::new(alloc);
            is_ready_in(g, &made, top);
            elab_spec(alloc, g, t, top, spec.get(), &mut made)?;
            top.core.leave(before);
            Ok(end_signature(alloc, g, made)?)
        }
        SigExp::Named(name, _) => use_signature(alloc, g, top, name),
        SigExp::Where(sig, tyvars, long, ty, at) => {
            let open = elab_open_sig(alloc, g, t, top, sig.get())?;
            elab_where(
                alloc,
                g,
                t,
                &mut top.core,
                &open,
                tyvars.as_slice(),
                long,
                ty,
                *at,
            )
        }
    }
}

/// A specification, after what is specified so far, which is in scope. What it specifies is in scope then too.
#[cycle(elab_open_sig)]
fn elab_spec(
    alloc: Global,
    g: &mut EnvGraph,
    t: &mut TypeTable,
    top: &mut TopScope,
    spec: &Spec,
    made: &mut Specified,
) -> Result<(), Fault>
    requires { IsReadyIn g.old made.old top.old }
    ensures phrase { IsSpecified g.old g.new t.old t.new made.old made.new top.old.core top.new.core
        (λ sc so st. infer_spec (signatures_seen g.old top.old) sc (spec_phrase spec.now) so st) result }
    ensures names { KeepsNames top.old top.new }
{
    match spec {
        Spec::Vals(descs, _) => vals(alloc, g, t, &mut top.core, descs.as_slice(), made),
        Spec::Types(descs, _) => types(alloc, g, t, &mut top.core, false, descs.as_slice(), made),
        Spec::Eqtypes(descs, _) => types(alloc, g, t, &mut top.core, true, descs.as_slice(), made),
        Spec::Datatypes(binds, _) => {
            datatypes(alloc, g, t, &mut top.core, binds.as_slice(), made)
        }
        Spec::Replication(name, long, _) => {
            replication(alloc, g, t, &mut top.core, name, long, made)
        }
        Spec::Exceptions(cons, _) => {
            exceptions(alloc, g, t, &mut top.core, cons.as_slice(), made)
        }
        Spec::Structures(binds, _) => {
            let before = mark(made);
            elab_structures(alloc, g, t, top, binds.as_slice(), made)?;
            Ok(bind_since(alloc, &mut top.core, made, before)?)
        }
        Spec::Include(sig, at) => {
            let before = mark(made);
            elab_included(alloc, g, t, top, sig.get(), *at, made)?;
            Ok(bind_since(alloc, &mut top.core, made, before)?)
        }
        Spec::Sequence(specs, _) => elab_specs(alloc, g, t, top, specs.as_slice(), made),
    }
}

/// An included signature, after what is specified so far. The scope is left as it was.
#[cycle(elab_open_sig)]
fn elab_included(
    alloc: Global,
    g: &mut EnvGraph,
    t: &mut TypeTable,
    top: &mut TopScope,
    sig: &SigExp,
    at: At,
    made: &mut Specified,
) -> Result<(), Fault>
    requires ready { IsTopScope g.old top.old }
    requires envs { AreEnvs g.old made.old.structures }
    ensures phrase { IsListed g.old g.new t.old t.new made.old made.new top.old.core top.new.core
        (λ sc so st. infer_added (signatures_seen g.old top.old) (λ inner one all. included inner at one all) sc
        (sig_phrase sig.now) so st) result }
    ensures names { KeepsNames top.old top.new }
{
    let open = elab_open_sig(alloc, g, t, top, sig)?;
    include(alloc, g, made, at, open)
}

/// A structure with its signature, after what is specified so far. The scope is left as it was.
#[cycle(elab_open_sig)]
fn elab_structure(
    alloc: Global,
    g: &mut EnvGraph,
    t: &mut TypeTable,
    top: &mut TopScope,
    bind: &SigBind,
    made: &mut Specified,
) -> Result<(), Fault>
    requires ready { IsTopScope g.old top.old }
    requires envs { AreEnvs g.old made.old.structures }
    ensures phrase { IsListed g.old g.new t.old t.new made.old made.new top.old.core top.new.core
        (λ sc so st. infer_structure (signatures_seen g.old top.old) (bind_phrase bind.now) sc so st) result }
    ensures names { KeepsNames top.old top.new }
{
    let open = elab_open_sig(alloc, g, t, top, &bind.sig)?;
    specify_structure(alloc, g, made, &bind.name, open)
}

/// Structures, all in the scope before them.
#[cycle(elab_open_sig)]
fn elab_structures(
    alloc: Global,
    g: &mut EnvGraph,
    t: &mut TypeTable,
    top: &mut TopScope,
    binds: &[SigBind],
    made: &mut Specified,
) -> Result<(), Fault>
    requires ready { IsTopScope g.old top.old }
    requires envs { AreEnvs g.old made.old.structures }
    ensures phrase { IsListed g.old g.new t.old t.new made.old made.new top.old.core top.new.core
        (λ sc so st. infer_structure_specs (signatures_seen g.old top.old) sc (sig_binds (map bind_phrase binds.now)) so
        st) result }
    ensures names { KeepsNames top.old top.new }
{
    for bind in binds {
        is_ready(g, made, top);
        elab_structure(alloc, g, t, top, bind, made)?;
    }
    Ok(())
}

/// Specifications in order, each in the scope with all before it.
#[cycle(elab_open_sig)]
fn elab_specs(
    alloc: Global,
    g: &mut EnvGraph,
    t: &mut TypeTable,
    top: &mut TopScope,
    specs: &[Spec],
    made: &mut Specified,
) -> Result<(), Fault>
    requires { IsReadyIn g.old made.old top.old }
    ensures phrase { IsSpecified g.old g.new t.old t.new made.old made.new top.old.core top.new.core
        (λ sc so st. infer_specs (signatures_seen g.old top.old) sc (spec_phrases (map spec_phrase specs.now)) so st)
        result }
    ensures names { KeepsNames top.old top.new }
{
    top.core.mark();
    for spec in specs {
        is_ready_in(g, made, top);
        elab_spec(alloc, g, t, top, spec, made)?;
    }
    Ok(())
}
