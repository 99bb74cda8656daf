//! Names that may not be bound, or not again.

ghost use Rattle.std.specs.Prelude.{◌≡◌};
ghost use Rattle.std.specs.Option.{is_some};
ghost use Rattle.name_trails.specs.Trails.{last_entry};
ghost use Rattle.static_semantics.specs.BasicTypes.{is_one_of};
ghost use Rattle.static_semantics.specs.Inferring.{Scope, refuses_where, name_at};
ghost use Rattle.type_phrases.specs.Inferred.{Answers};

use cm_base::{Fault, List, Text};
use name_trails::NameTrail;
use sml_modules::EnvGraph;
use sml_trees::Name;
use std::alloc::Global;
use type_phrases::{place_of, refusal};

/// A diagnostic at a name where a check fails.
pub(crate) fn refuse_where(
    alloc: Global,
    g: &EnvGraph,
    fails: bool,
    number: u8,
    name: &Name,
) -> Result<(), Fault>
    ensures { (inner : Scope) → inner.home ≡ g.now.home
        → Answers (refuses_where fails number inner (name_at name.now)) (λ u. tt) result }
{
    if fails {
        Err(refusal(g, number, place_of(name), List::new(alloc)))
    } else {
        Ok(())
    }
}

/// Whether a name is one of some.
pub(crate) fn is_one_of(names: &[Text], name: &Text) -> bool
    ensures { result ≡ is_one_of names.now name.now }
{
    for other in names {
        if name == other {
            return true;
        }
    }
    false
}

/// Whether a name is bound.
pub(crate) fn is_bound<T>(rows: &NameTrail<T>, name: &Text) -> bool
    ensures { result ≡ is_some (last_entry rows.now name.now) }
{
    match rows.find(name) {
        Some(_) => true,
        None => false,
    }
}
