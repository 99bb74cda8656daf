//! All entries of a list are specified at once.

ghost use Rattle.std.specs.Prelude.{◌≡◌, ◌++◌, OnOk};
ghost use Rattle.semantic_objects.specs.declared.entry.ValueEntry.{ValueEntry};
ghost use Rattle.sml_modules.specs.Graphs.{Graph};
ghost use Rattle.static_semantics.specs.Inferring.{Scope};
ghost use Rattle.module_semantics.specs.SignatureInference.{have_common, specified};
ghost use Rattle.core_scopes.specs.Listed.{env_rows};
ghost use Rattle.core_scopes.specs.Marks.{env_of_made};
ghost use Rattle.type_phrases.specs.Inferred.{Answers};
ghost use Rattle.signature_specs.specs.Specs.{env_so_far, signature_so_far, IsFrontOf};
ghost use Rattle.datatype_specs.specs.Parts.{AddsPart};

use crate::entries::{add_structures, add_types, add_values, any_structure, any_type, any_value};
use cm_base::{Fault, List, NoMemory};
use core_scopes::Made;
use signature_specs::Specified;
use sml_modules::EnvGraph;
use sml_trees::At;
use std::alloc::Global;
use type_phrases::refusal;

/// Whether a name of a list is specified already: structures, types and values are three kinds of names.
fn has_common<V>(made: &Specified, part: &Made<V>) -> bool
    ensures { (g : Graph) (read : V → ValueEntry)
        → result ≡ have_common (env_of_made g read part.now) (env_so_far g made.now) }
{
    any_structure(&made.structures, part.structures.as_slice())
        || (any_type(&made.types, part.types.as_slice())
            || any_value(&made.values, part.values.as_slice()))
}

/// Puts all entries of a list behind what is specified.
fn add_made<V: Drop>(made: &mut Specified, part: Made<V>) -> Result<(), NoMemory>
    ensures { OnOk result (AddsPart made.old made.new part) }
{
    let Made {
        structures,
        types,
        values,
    } = part;
    add_structures(&mut made.structures, structures)?;
    add_types(&mut made.types, types)?;
    add_values(&mut made.values, values)
}

/// Specifies all entries of a list: 40 at a place where one of them has a name that is specified already. A value of the
/// unit's own is refused as want of memory is. A diagnostic leaves the signature as it was.
/// The Definition of Standard ML (Revised), rules 75 and 77.
pub fn specify_made<V: Drop>(
    alloc: Global,
    g: &EnvGraph,
    made: &mut Specified,
    at: At,
    part: Made<V>,
) -> Result<(), Fault>
    ensures infers { (inner : Scope) (read : V → ValueEntry) → inner.home ≡ g.now.home
        → Answers (specified inner at (env_of_made g.now read part) (signature_so_far g.now made.old))
        (λ u. signature_so_far g.now made.new) result }
    ensures front { OnOk result (IsFrontOf made.old made.new) }
    ensures structures { OnOk result (made.new.structures ≡ made.old.structures ++ env_rows part.structures) }
{
    if has_common(made, &part) {
        return Err(refusal(g, 40, at, List::new(alloc)));
    }
    add_made(made, part)?;
    Ok(())
}
