//! The one form of a scheme: its variables by first occurrence, and those that don't occur gone.

ghost use Rattle.std.specs.Prelude.{◌≡◌, IfOk, false};
ghost use Rattle.env_parts.specs.Types.{holds_free};
ghost use Rattle.unification.specs.Closing.{canonical_scheme};
ghost use Rattle.type_nodes.specs.Tables.{IsFrontOf};

use cm_base::{List, NoMemory};
use semantic_objects::Scheme;
use sml_types::TypeTable;
use std::alloc::Global;

/// The one form of a scheme in which no variable of the table stands: an instance of it is closed over all its
/// variables. What was made for it stays in the table.
fn reclosed(t: &mut TypeTable, alloc: Global, scheme: &Scheme) -> Result<Scheme, NoMemory>
    requires { holds_free scheme.now.body ≡ false }
    ensures canonical { IfOk result (λ made. made ≡ canonical_scheme scheme.now) }
    ensures front { IsFrontOf t.old t.new }
{
    t.is_kept();
    let id = t.instantiate(scheme)?;
    let kept = List::new(alloc);
    t.generalise(id, &kept)
}

/// The one form of a scheme in which no variable of the table stands.
pub(crate) fn canonical(
    t: &mut TypeTable,
    alloc: Global,
    scheme: &Scheme,
) -> Result<Scheme, NoMemory>
    requires { holds_free scheme.now.body ≡ false }
    ensures canonical { IfOk result (λ made. made ≡ canonical_scheme scheme.now) }
    ensures table { t.new ≡ t.old }
{
    let before = t.mark();
    let made = reclosed(t, alloc, scheme);
    t.undo(&before);
    made
}
