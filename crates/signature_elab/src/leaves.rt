//! Specifications in which no signature stands. What each specifies is bound in the scope once.

ghost use Rattle.std.specs.Prelude.{map};
ghost use Rattle.bare_phrases.specs.PhraseOf.{con_phrase, dat_phrase};
ghost use Rattle.core_scopes.specs.Scopes.{AreEnvs, IsScopeOf};
ghost use Rattle.module_semantics.specs.SigPhrases.{type_desc_phrase, val_phrase};
ghost use Rattle.module_semantics.specs.SignatureInference.{infer_datatype_specs, infer_type_descs, infer_vals};
ghost use Rattle.signature_parts.specs.Growing.{IsSpecified};
ghost use Rattle.signature_elab.specs.Phrases.{infer_exceptions, infer_replicated};

use cm_base::Fault;
use core_scopes::Scope;
use datatype_specs::{elab_datatype_specs, elab_replication_spec};
use signature_parts::{bind_since, mark};
use signature_specs::{Specified, elab_exception_specs, elab_types, elab_vals};
use sml_modules::EnvGraph;
use sml_trees::{ConBind, DatBind, LongName, Name, TypDesc, ValDesc};
use sml_types::TypeTable;
use std::alloc::Global;

/// `val` specifications.
pub(crate) fn vals<V: Copy + Drop>(
    alloc: Global,
    g: &mut EnvGraph,
    t: &mut TypeTable,
    scope: &mut Scope<V>,
    descs: &[ValDesc],
    made: &mut Specified,
) -> Result<(), Fault>
    requires scope { IsScopeOf g.old scope.old }
    requires envs { AreEnvs g.old made.old.structures }
    ensures { IsSpecified g.old g.new t.old t.new made.old made.new scope.old scope.new
        (λ sc sig st. infer_vals sc (map val_phrase descs.now) sig st) result }
{
    let before = mark(made);
    elab_vals(alloc, g, t, scope, descs, made)?;
    Ok(bind_since(alloc, scope, made, before)?)
}

/// `type` and `eqtype` specifications.
pub(crate) fn types<V: Copy + Drop>(
    alloc: Global,
    g: &mut EnvGraph,
    t: &mut TypeTable,
    scope: &mut Scope<V>,
    eq: bool,
    descs: &[TypDesc],
    made: &mut Specified,
) -> Result<(), Fault>
    requires scope { IsScopeOf g.old scope.old }
    requires envs { AreEnvs g.old made.old.structures }
    ensures { IsSpecified g.old g.new t.old t.new made.old made.new scope.old scope.new
        (λ sc sig st. infer_type_descs sc eq (map type_desc_phrase descs.now) sig st) result }
{
    let before = mark(made);
    elab_types(alloc, g, t, eq, descs, made)?;
    Ok(bind_since(alloc, scope, made, before)?)
}

/// `datatype` specifications.
pub(crate) fn datatypes<V: Copy + Drop>(
    alloc: Global,
    g: &mut EnvGraph,
    t: &mut TypeTable,
    scope: &mut Scope<V>,
    binds: &[DatBind],
    made: &mut Specified,
) -> Result<(), Fault>
    requires scope { IsScopeOf g.old scope.old }
    requires envs { AreEnvs g.old made.old.structures }
    ensures { IsSpecified g.old g.new t.old t.new made.old made.new scope.old scope.new
        (λ sc sig st. infer_datatype_specs sc (map dat_phrase binds.now) sig st) result }
{
    let before = mark(made);
    elab_datatype_specs(alloc, g, t, scope, binds, made)?;
    Ok(bind_since(alloc, scope, made, before)?)
}

/// The replication of a datatype.
pub(crate) fn replication<V: Copy + Drop>(
    alloc: Global,
    g: &mut EnvGraph,
    t: &mut TypeTable,
    scope: &mut Scope<V>,
    name: &Name,
    long: &LongName,
    made: &mut Specified,
) -> Result<(), Fault>
    requires scope { IsScopeOf g.old scope.old }
    requires envs { AreEnvs g.old made.old.structures }
    ensures { IsSpecified g.old g.new t.old t.new made.old made.new scope.old scope.new
        (λ sc sig st. infer_replicated sc name.now long.now sig st) result }
{
    let before = mark(made);
    elab_replication_spec(alloc, g, scope, name, long, made)?;
    Ok(bind_since(alloc, scope, made, before)?)
}

/// `exception` specifications.
pub(crate) fn exceptions<V: Copy + Drop>(
    alloc: Global,
    g: &mut EnvGraph,
    t: &mut TypeTable,
    scope: &mut Scope<V>,
    cons: &[ConBind],
    made: &mut Specified,
) -> Result<(), Fault>
    requires scope { IsScopeOf g.old scope.old }
    requires envs { AreEnvs g.old made.old.structures }
    ensures { IsSpecified g.old g.new t.old t.new made.old made.new scope.old scope.new
        (λ sc sig st. infer_exceptions sc (map con_phrase cons.now) sig st) result }
{
    let before = mark(made);
    elab_exception_specs(alloc, g, t, scope, cons, made)?;
    Ok(bind_since(alloc, scope, made, before)?)
}
