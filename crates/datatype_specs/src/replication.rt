//! Replication of datatypes in signatures.

ghost use Rattle.std.specs.Prelude.{◌≡◌, OnOk};
ghost use Rattle.semantic_objects.specs.declared.entry.ValueEntry.{ValueEntry};
ghost use Rattle.type_nodes.specs.Tables.{Table};
ghost use Rattle.core_scopes.specs.Scopes.{IsScopeOf};
ghost use Rattle.type_phrases.specs.Inferred.{Answers, scope_in};
ghost use Rattle.signature_specs.specs.Specs.{signature_so_far, IsFrontOf};
ghost use Rattle.datatype_specs.specs.Replicas.{infer_replication_spec};

use crate::parts::specify_made;
use cm_base::Fault;
use core_scopes::Scope;
use signature_specs::Specified;
use sml_modules::EnvGraph;
use sml_trees::{LongName, Name};
use std::alloc::Global;
use type_bindings::replicate;
use type_phrases::place_of;

/// The replication of a datatype, after what a signature specifies so far: the type that the copied name stands for in
/// the scope, as it is, and its constructors as values. 30 at a copied name that stands for no type; 40 at the new name
/// where a type has it already or a value has the name of one of the constructors. A diagnostic leaves the signature as
/// it was. The Definition of Standard ML (Revised), rule 72.
pub fn elab_replication_spec<V: Copy + Drop>(
    alloc: Global,
    g: &EnvGraph,
    scope: &Scope<V>,
    name: &Name,
    long: &LongName,
    made: &mut Specified,
) -> Result<(), Fault>
    requires { IsScopeOf g.now scope.now }
    ensures infers { (u : Table) (read : V → ValueEntry)
        → Answers (infer_replication_spec (scope_in g.now u read scope.now) name.now long.now
        (signature_so_far g.now made.old)) (λ done. signature_so_far g.now made.new) result }
    ensures front { OnOk result (IsFrontOf made.old made.new) }
    ensures structures { OnOk result (made.new.structures ≡ made.old.structures) }
{
    let part = replicate(alloc, g, scope, name, long)?;
    specify_made(alloc, g, made, place_of(name), part)
}
