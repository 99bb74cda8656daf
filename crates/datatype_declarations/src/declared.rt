//! A `datatype` declaration in an environment.

ghost use Rattle.std.specs.Prelude.{◌≡◌, map, IfOk, OnErr};
ghost use Rattle.sml_trees.specs.declared.name.At.{At};
ghost use Rattle.unification.specs.Fitting.{IsFit};
ghost use Rattle.type_nodes.specs.Tables.{state};
ghost use Rattle.sml_modules.specs.Graphs.{env_at, value_rows, HasEnv};
ghost use Rattle.bare_phrases.specs.Phrases.{DecPhrase};
ghost use Rattle.bare_phrases.specs.PhraseOf.{dat_phrase};
ghost use Rattle.static_semantics.specs.BasicTypes.{reserved_constructors};
ghost use Rattle.static_semantics.specs.Inferring.{outermost};
ghost use Rattle.static_semantics.specs.DatatypeInference.{datatypes_of};
ghost use Rattle.core_scopes.specs.Marks.{value_rows as rows_read};
ghost use Rattle.core_soundness.specs.Following.{HasFirmTypes, DeclaresByRules};
ghost use Rattle.type_phrases.specs.Inferred.{Answers, KeepsTypes, progress};
ghost use Rattle.datatype_elab.specs.Leaving.{DeclaresTypes, MakesNames, LeftByDiag};
ghost use Rattle.datatype_declarations.specs.Nothing.{nobody_entry};

use crate::bindings::elab_datatypes;
use cm_base::{Fault, List, NoMemory};
use core_scopes::{Made, NamedInScope, Scope, ValueInScope};
use sml_modules::{EnvGraph, EnvId, NamedValue};
use sml_trees::DatBind;
use sml_types::TypeTable;
use std::alloc::Global;

/// A value whose scheme isn't closed yet: a declaration of datatypes in an environment has none in scope.
#[derive(Clone, Copy)]
pub(crate) enum Nobody {}

/// Values in scope as entries of an environment.
fn values_of(
    alloc: Global,
    entries: List<NamedInScope<Nobody>>,
) -> Result<List<NamedValue>, NoMemory>
    ensures { IfOk result (λ values. value_rows values ≡ rows_read nobody_entry entries) }
{
    let mut values = List::new(alloc);
    for named in entries.into_vec() {
        let NamedInScope { name, entry } = named;
        match entry {
            ValueInScope::Entry(entry) => values.add(NamedValue { name, entry })?,
            ValueInScope::Own(own) => match own {},
        }
    }
    Ok(values)
}

/// The environment of a `datatype` declaration in an environment. The table may have more after a refusal.
fn declare_in(
    alloc: Global,
    g: &mut EnvGraph,
    t: &mut TypeTable,
    env: EnvId,
    binds: &List<DatBind>,
) -> Result<EnvId, Fault>
    requires { HasEnv g.old env }
    ensures infers { Answers (datatypes_of (outermost g.old.home (env_at g.old env)) reserved_constructors
        (map dat_phrase binds.now) (progress t.old g.old)) (λ id. (env_at g.new id, progress t.new g.new)) result }
    ensures declared { IfOk result (DeclaresTypes g.old g.new) }
    ensures ids { KeepsTypes t.old t.new }
    ensures names { OnErr result (MakesNames g.old g.new) }
    ensures graph { LeftByDiag result g.old g.new }
{
    let mut scope: Scope<Nobody> = Scope::new(alloc, env);
    let phrases = binds.as_slice();
    let made = elab_datatypes(alloc, g, t, &mut scope, phrases)?;
    let Made {
        structures,
        types,
        values,
    } = made;
    let entries = values_of(alloc, values)?;
    let id = g.make_env(&structures, types, entries)?;
    Ok(id)
}

/// The environment of a `datatype` declaration in an environment: its types with their constructors, and the
/// constructors as values. It answers 30, 34, 35 and 40 as `elab_datatypes` does. Where the types in scope are firm, the
/// rules give the declaration this environment, wherever it stands; each table is fit. A refusal leaves the table as it
/// was, and a diagnostic the graph too; where memory lacks, the graph may have made some of the names. The Definition of
/// Standard ML (Revised), rules 17, 28 and 29, and sections 2.9 and 4.9.
pub fn datatypes(
    g: &mut EnvGraph,
    t: &mut TypeTable,
    env: EnvId,
    binds: &List<DatBind>,
) -> Result<EnvId, Fault>
    requires { HasEnv g.old env }
    ensures infers { Answers (datatypes_of (outermost g.old.home (env_at g.old env)) reserved_constructors
        (map dat_phrase binds.now) (progress t.old g.old)) (λ id. (env_at g.new id, progress t.new g.new)) result }
    ensures sound { (at : At) → IsFit (state t.old)
        → HasFirmTypes (outermost g.old.home (env_at g.old env)) (progress t.old g.old)
        → IfOk result (λ id. DeclaresByRules (outermost g.old.home (env_at g.old env))
        (DecPhrase.Datatypes (map dat_phrase binds.now) at) (progress t.old g.old)
        (env_at g.new id, progress t.new g.new)) }
    ensures declared { IfOk result (DeclaresTypes g.old g.new) }
    ensures ids { KeepsTypes t.old t.new }
    ensures refused { OnErr result (t.new ≡ t.old) }
    ensures names { OnErr result (MakesNames g.old g.new) }
    ensures graph { LeftByDiag result g.old g.new }
{
    let alloc = g.alloc();
    let before = t.mark();
    match declare_in(alloc, g, t, env, binds) {
        Ok(id) => Ok(id),
        Err(fault) => {
            t.undo(&before);
            Err(fault)
        }
    }
}
