//! Structures with signatures.

ghost use Rattle.sml_modules.specs.Graphs.{HasEnv};
ghost use Rattle.module_semantics.specs.SigPhrases.{sig_phrase};
ghost use Rattle.module_scopes.specs.Tops.{IsTopScope};
ghost use Rattle.structure_elab.specs.Moments.{moment};
ghost use Rattle.structure_elab.specs.Phrases.{IsSignature, IsTransparent, IsOpaque};

use cm_base::Fault;
use module_rules::{match_structure, seal_structure};
use module_scopes::TopScope;
use signature_elab::elab_sig_in;
use sml_modules::{EnvGraph, EnvId, SigId};
use sml_trees::{At, SigExp};
use sml_types::TypeTable;
use std::alloc::Global;

/// The signature that a signature expression stands for in what is in scope, which is left as it was; after a refusal it
/// is of no use. The first of 30, 33, 35, 37 and 40 is answered. The Definition of Standard ML (Revised), rule 65.
pub fn signature_in(
    alloc: Global,
    g: &mut EnvGraph,
    t: &mut TypeTable,
    top: &mut TopScope,
    sig: &SigExp,
) -> Result<SigId, Fault>
    requires { IsTopScope g.old top.old }
    ensures { IsSignature (moment g.old t.old top.old) (sig_phrase sig.now) (moment g.new t.new top.new) result }
{
    elab_sig_in(alloc, g, t, top, sig)
}

/// A signature, and what a structure is under it as a transparent one, which it matches as it is known, at a place.
/// The Definition of Standard ML (Revised), rule 52.
pub(crate) fn constrain(
    alloc: Global,
    g: &mut EnvGraph,
    t: &mut TypeTable,
    top: &mut TopScope,
    at: At,
    env: EnvId,
    sig: &SigExp,
) -> Result<EnvId, Fault>
    requires there { IsTopScope g.old top.old }
    requires env { HasEnv g.old env }
    ensures { IsTransparent (moment g.old t.old top.old) at (sig_phrase sig.now) env (moment g.new t.new top.new) result }
{
    let sig = signature_in(alloc, g, t, top, sig)?;
    match_structure(g, t, at, env, sig)
}

/// .. as an opaque one. The Definition of Standard ML (Revised), rule 53.
pub(crate) fn seal(
    alloc: Global,
    g: &mut EnvGraph,
    t: &mut TypeTable,
    top: &mut TopScope,
    at: At,
    env: EnvId,
    sig: &SigExp,
) -> Result<EnvId, Fault>
    requires there { IsTopScope g.old top.old }
    requires env { HasEnv g.old env }
    ensures { IsOpaque (moment g.old t.old top.old) at (sig_phrase sig.now) env (moment g.new t.new top.new) result }
{
    let sig = signature_in(alloc, g, t, top, sig)?;
    seal_structure(g, t, at, env, sig)
}
