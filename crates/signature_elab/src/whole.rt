//! Signature expressions that are finished.

ghost use Rattle.std.specs.Prelude.{◌≡◌, ℕ, List, Bool, IfOk, OnOk, OnErr};
ghost use Rattle.sml_modules.specs.Graphs.{signature_at, top_at, HasSignature, HasTop, Keeps};
ghost use Rattle.static_semantics.specs.Inferring.{outermost};
ghost use Rattle.module_semantics.specs.SigPhrases.{sig_phrase};
ghost use Rattle.module_semantics.specs.SignatureInference.{signature_of};
ghost use Rattle.unit_semantics.specs.StructureInference.{core_scope};
ghost use Rattle.unit_laws.specs.Spelling.{SigSpelt};
ghost use Rattle.specification_laws.specs.Promises.{IsAround, SignatureDerived};
ghost use Rattle.type_phrases.specs.Inferred.{Answers, KeepsTypes, progress};
ghost use Rattle.module_scopes.specs.Tops.{top_seen, IsTopScope};

use crate::phrase::elab_open_sig;
use cm_base::{Fault, NoMemory};
use core_scopes::Scope;
use module_scopes::{Defined, TopScope};
use signature_parts::close_signature;
use sml_modules::{EnvGraph, SigId, TopId};
use sml_trees::SigExp;
use sml_types::TypeTable;
use std::alloc::Global;

/// The signature that a signature expression stands for under what is in scope at the top level of a unit: 30, 33, 35,
/// 37 and 40 as inference has them in order. It binds its flexible names, numbered from 0 in the order in which its
/// specifications made them. The scope is left as it was; after a refusal it is of no use, the table may have more, and
/// names of the unit that nothing has may have been made. All ids keep what they stand for.
/// The Definition of Standard ML (Revised), rules 62 to 65.
pub fn elab_sig_in(
    alloc: Global,
    g: &mut EnvGraph,
    t: &mut TypeTable,
    top: &mut TopScope,
    sig: &SigExp,
) -> Result<SigId, Fault>
    requires { IsTopScope g.old top.old }
    ensures infers { Answers (signature_of (top_seen g.old top.old).signatures
        (core_scope g.old.home (top_seen g.old top.old)) (sig_phrase sig.now) (progress t.old g.old))
        (λ id. (signature_at g.new id, progress t.new g.new)) result }
    ensures there { IfOk result (HasSignature g.new) }
    ensures keeps { KeepsTypes t.old t.new }
    ensures graph { Keeps g.old g.new }
    ensures home { g.new.home ≡ g.old.home }
    ensures top { OnOk result (top.new ≡ top.old) }
{
    let open = elab_open_sig(alloc, g, t, top, sig)?;
    Ok(close_signature(alloc, g, &open)?)
}

/// What is in scope of a top of the graph alone.
fn scope_of_top(alloc: Global, g: &EnvGraph, top: TopId) -> Result<TopScope, NoMemory>
    requires { HasTop g.now top }
    ensures signatures { IfOk result (λ scope. (top_seen g.now scope).signatures ≡ (top_at g.now top).signatures) }
    ensures core { IfOk result (λ scope. core_scope g.now.home (top_seen g.now scope)
        ≡ outermost g.now.home (top_at g.now top).env) }
    ensures there { IfOk result (IsTopScope g.now) }
{
    let env = g.env_of(top)?;
    let core = Scope::new(alloc, env);
    let defined = Defined::new(alloc);
    Ok(TopScope {
        core,
        given: top,
        defined,
    })
}

/// The signature expression in what stands at the top. The table may have more after a refusal.
fn elab_in_top(
    g: &mut EnvGraph,
    t: &mut TypeTable,
    top: TopId,
    sig: &SigExp,
) -> Result<SigId, Fault>
    requires { HasTop g.old top }
    ensures infers { Answers (signature_of (top_at g.old top).signatures
        (outermost g.old.home (top_at g.old top).env) (sig_phrase sig.now) (progress t.old g.old))
        (λ id. (signature_at g.new id, progress t.new g.new)) result }
    ensures there { IfOk result (HasSignature g.new) }
    ensures keeps { KeepsTypes t.old t.new }
    ensures graph { Keeps g.old g.new }
    ensures home { g.new.home ≡ g.old.home }
{
    let alloc = g.alloc();
    let mut scope = scope_of_top(alloc, g, top)?;
    elab_sig_in(alloc, g, t, &mut scope, sig)
}

/// The signature that a signature expression stands for, with the environment and the signatures of a top: 30, 33, 35,
/// 37 and 40 as inference has them in order, and the table is then as before. It binds its flexible names, numbered from
/// 0 in the order in which its specifications made them. All ids keep what they stand for; after a refusal names of the
/// unit that nothing has may have been made. Where what is in scope is as a unit has it, the rules give this signature.
/// The Definition of Standard ML (Revised), rules 62 to 65.
pub fn elab_sig(
    g: &mut EnvGraph,
    t: &mut TypeTable,
    env: TopId,
    sig: &SigExp,
) -> Result<SigId, Fault>
    requires { HasTop g.old env }
    ensures infers { Answers (signature_of (top_at g.old env).signatures
        (outermost g.old.home (top_at g.old env).env) (sig_phrase sig.now) (progress t.old g.old))
        (λ id. (signature_at g.new id, progress t.new g.new)) result }
    ensures sound { (good : List ℕ → Bool) → SigSpelt good (sig_phrase sig.now)
        → IsAround good (top_at g.old env).signatures (outermost g.old.home (top_at g.old env).env) (progress t.old g.old)
        → IfOk result (λ id. SignatureDerived (top_at g.old env).signatures
        (outermost g.old.home (top_at g.old env).env) (sig_phrase sig.now) (progress t.old g.old)
        (signature_at g.new id, progress t.new g.new)) }
    ensures there { IfOk result (HasSignature g.new) }
    ensures keeps { KeepsTypes t.old t.new }
    ensures refused { OnErr result (t.new ≡ t.old) }
    ensures graph { Keeps g.old g.new }
    ensures home { g.new.home ≡ g.old.home }
{
    let before = t.mark();
    match elab_in_top(g, t, env, sig) {
        Ok(id) => Ok(id),
        Err(fault) => {
            t.undo(&before);
            Err(fault)
        }
    }
}
