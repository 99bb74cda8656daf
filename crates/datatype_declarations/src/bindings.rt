//! The datatypes of a declaration in a scope.

ghost use Rattle.std.specs.Prelude.{◌≡◌, [], map, IfOk, OnErr};
ghost use Rattle.semantic_objects.specs.declared.entry.ValueEntry.{ValueEntry};
ghost use Rattle.type_nodes.specs.Tables.{Table};
ghost use Rattle.sml_modules.specs.Graphs.{Keeps};
ghost use Rattle.bare_phrases.specs.PhraseOf.{dat_phrase};
ghost use Rattle.static_semantics.specs.BasicTypes.{reserved_constructors};
ghost use Rattle.static_semantics.specs.DatatypeInference.{datatypes_of};
ghost use Rattle.core_scopes.specs.Scopes.{IsScopeOf};
ghost use Rattle.core_scopes.specs.Marks.{env_of_made};
ghost use Rattle.type_phrases.specs.Inferred.{Answers, KeepsTypes, progress, scope_in};
ghost use Rattle.datatype_elab.specs.Leaving.{MakesNames, LeftByDiag};

use cm_base::{Fault, List, NoMemory, Text};
use core_scopes::{Made, Scope};
use datatype_elab::datatypes_in;
use sml_modules::EnvGraph;
use sml_trees::DatBind;
use sml_types::TypeTable;
use std::alloc::Global;

/// The names that no constructor of a declaration may have.
fn reserved(alloc: Global) -> Result<List<Text>, NoMemory>
    ensures { IfOk result (λ names. names ≡ reserved_constructors) }
{
    let mut names = List::new(alloc);
    names.add(Text::from_bytes(alloc, b"it")?)?;
    names.add(Text::from_bytes(alloc, b"true")?)?;
    names.add(Text::from_bytes(alloc, b"false")?)?;
    names.add(Text::from_bytes(alloc, b"nil")?)?;
    names.add(Text::from_bytes(alloc, b"::")?)?;
    names.add(Text::from_bytes(alloc, b"ref")?)?;
    Ok(names)
}

/// What a `datatype` declaration binds in a scope: each type with its constructors, and the constructors as values. It
/// answers as `datatypes_in` does, with 34 at a constructor that is called `true`, `false`, `nil`, `::`, `ref` or `it`.
/// Sizes aren't looked at. The types have the next names of the graph, in written order, and all its ids stay what they
/// were. The scope is left as it was, and so is the table after a refusal; the graph is after a diagnostic, and where
/// memory lacks it may have made some of the names. The Definition of Standard ML (Revised), rules 17, 28 and 29, and sections 2.9 and 4.9.
pub fn elab_datatypes<V: Copy + Drop>(
    alloc: Global,
    g: &mut EnvGraph,
    t: &mut TypeTable,
    scope: &mut Scope<V>,
    binds: &[DatBind],
) -> Result<Made<V>, Fault>
    requires { IsScopeOf g.old scope.old }
    ensures infers { (u : Table) (read : V → ValueEntry)
        → Answers (datatypes_of (scope_in g.old u read scope.old) reserved_constructors (map dat_phrase binds.now)
        (progress t.old g.old)) (λ made. (env_of_made g.new read made, progress t.new g.new)) result }
    ensures structures { IfOk result (λ made. made.structures ≡ []) }
    ensures ids { KeepsTypes t.old t.new }
    ensures refused { OnErr result (t.new ≡ t.old) }
    ensures names { MakesNames g.old g.new }
    ensures keeps { Keeps g.old g.new }
    ensures graph { LeftByDiag result g.old g.new }
    ensures scope { scope.new ≡ scope.old }
{
    let refused = reserved(alloc)?;
    datatypes_in(alloc, g, t, scope, refused.as_slice(), binds)
}
