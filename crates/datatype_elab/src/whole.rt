//! The datatypes of a declaration: read, chosen, named and bound.

ghost use Rattle.std.specs.Prelude.{◌≡◌, ◌+◌, [], length, map, IfOk, OnOk, OnErr};
ghost use Rattle.semantic_objects.specs.declared.entry.ValueEntry.{ValueEntry};
ghost use Rattle.semantic_objects.specs.Environments.{empty_env};
ghost use Rattle.type_nodes.specs.Tables.{Table};
ghost use Rattle.sml_modules.specs.Graphs.{Graph};
ghost use Rattle.bare_phrases.specs.PhraseOf.{dat_phrase};
ghost use Rattle.static_semantics.specs.DatatypeInference.{datatypes_of, made_types};
ghost use Rattle.core_scopes.specs.Scopes.{IsScopeOf};
ghost use Rattle.core_scopes.specs.Marks.{env_of_made};
ghost use Rattle.type_phrases.specs.Inferred.{Answers, KeepsTypes, progress, scope_in};
ghost use Rattle.datatype_elab.specs.Listing.{dat_of, AreDats};
ghost use Rattle.datatype_elab.specs.Binding.{AllBound};
ghost use Rattle.datatype_elab.specs.Leaving.{MakesNames, LeftByDiag};

use crate::dats::DatRead;
use crate::environment::make_all;
use crate::needs::NewNames;
use crate::reading::{Datatypes, read_datatypes};
use crate::settle::admits;
use cm_base::{Fault, List, NoMemory, Text};
use core_scopes::{Made, Scope};
use sml_modules::EnvGraph;
use sml_trees::DatBind;
use sml_types::TypeTable;
use std::alloc::Global;

/// How many type variables a datatype has.
fn arity_of(dat: &DatRead) -> Result<u32, NoMemory>
    ensures { IfOk result (λ arity. arity ≡ length dat.now.list) }
{
    match u32::try_from(dat.list.len()) {
        Ok(arity) => Ok(arity),
        Err(_) => Err(NoMemory),
    }
}

/// Makes the names of datatypes, in their order.
fn make_names(g: &mut EnvGraph, choice: &List<bool>, dats: &[DatRead]) -> Result<(), NoMemory>
    ensures ok { OnOk result (length g.new.made ≡ length g.old.made + length dats.now) }
    ensures names { MakesNames g.old g.new }
{
    for at in 0..dats.len() {
        let arity = arity_of(&dats[at])?;
        g.new_name(arity, admits(choice, at))?;
    }
    Ok(())
}

/// What datatypes bind that were read, with the names which the graph makes next.
fn make_read<V: Copy + Drop>(
    alloc: Global,
    g: &EnvGraph,
    read: &Datatypes,
) -> Result<Made<V>, NoMemory>
    requires counted { length read.now.dats ≡ length read.now.choice }
    requires bound { AllBound read.now.dats }
    ensures made { IfOk result (λ made. (h : Graph) (own : V → ValueEntry) (t : Table) → AreDats t read.now.dats
        → env_of_made h own made
        ≡ made_types g.now.home (length g.now.made) read.now.choice (length g.now.made) (map (dat_of t) read.now.dats)
        empty_env) }
    ensures structures { IfOk result (λ made. made.structures ≡ []) }
{
    let new = NewNames {
        home: g.home()?,
        first: g.made(),
        count: read.dats.len(),
    };
    make_all(alloc, g, &new, &read.choice, read.dats.as_slice())
}

/// The datatypes of a declaration, with their names made. The table may have more after a refusal.
fn declare<V: Copy + Drop>(
    alloc: Global,
    g: &mut EnvGraph,
    t: &mut TypeTable,
    scope: &mut Scope<V>,
    refused: &[Text],
    binds: &[DatBind],
) -> Result<Made<V>, Fault>
    requires { IsScopeOf g.old scope.old }
    ensures infers { (u : Table) (read : V → ValueEntry)
        → Answers (datatypes_of (scope_in g.old u read scope.old) refused.now (map dat_phrase binds.now)
        (progress t.old g.old)) (λ made. (env_of_made g.new read made, progress t.new g.new)) result }
    ensures structures { IfOk result (λ made. made.structures ≡ []) }
    ensures ids { KeepsTypes t.old t.new }
    ensures names { MakesNames g.old g.new }
    ensures graph { LeftByDiag result g.old g.new }
    ensures scope { scope.new ≡ scope.old }
{
    let read = read_datatypes(alloc, g, t, scope, refused, binds)?;
    let made = make_read(alloc, g, &read)?;
    make_names(g, &read.choice, read.dats.as_slice())?;
    Ok(made)
}

/// What a declaration of datatypes binds in a scope: each type with its constructors, and the constructors as values.
/// It answers 40 at a type that stands before in the declaration, before any constructor is looked at; then in written
/// order the faults of each list of type variables and, for each constructor, 34 at a name of `refused`, 40 at one that
/// a constructor of the declaration before has, and what its type is refused for. The types have the next names of the
/// graph, in written order, and admit equality as far as possible together. The scope is left as it was, and so is the
/// table after a refusal; the graph is after a diagnostic, and where memory lacks it may have made some of the names.
/// The Definition of Standard ML (Revised), rules 17, 28 and 29, and section 4.9.
pub fn datatypes_in<V: Copy + Drop>(
    alloc: Global,
    g: &mut EnvGraph,
    t: &mut TypeTable,
    scope: &mut Scope<V>,
    refused: &[Text],
    binds: &[DatBind],
) -> Result<Made<V>, Fault>
    requires { IsScopeOf g.old scope.old }
    ensures infers { (u : Table) (read : V → ValueEntry)
        → Answers (datatypes_of (scope_in g.old u read scope.old) refused.now (map dat_phrase binds.now)
        (progress t.old g.old)) (λ made. (env_of_made g.new read made, progress t.new g.new)) result }
    ensures structures { IfOk result (λ made. made.structures ≡ []) }
    ensures ids { KeepsTypes t.old t.new }
    ensures refused { OnErr result (t.new ≡ t.old) }
    ensures names { MakesNames g.old g.new }
    ensures graph { LeftByDiag result g.old g.new }
    ensures scope { scope.new ≡ scope.old }
{
    let before = t.mark();
    match declare(alloc, g, t, scope, refused, binds) {
        Ok(made) => Ok(made),
        Err(fault) => {
            t.undo(&before);
            Err(fault)
        }
    }
}
