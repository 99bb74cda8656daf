//! What may be given in front of the initial basis.

ghost use Rattle.std.specs.Prelude.{◌↔◌, IfOk, IsTrue};
ghost use Rattle.sml_modules.specs.Graphs.{top_at, HasTop};
ghost use Rattle.type_phrases.specs.Inferred.{progress};
ghost use Rattle.basis_laws.specs.Promises.{MayBeGiven};

use cm_base::NoMemory;
use given_tops::{knows_names_below, may_stand_in_front};
use sml_modules::{EnvGraph, TopId};
use sml_types::TypeTable;

/// Whether what stands at a top may be given to the unit that the graph is at.
fn may_be_given(g: &EnvGraph, t: &TypeTable, given: TopId) -> Result<bool, NoMemory>
    requires { HasTop g.now given }
    ensures { IfOk result (λ may. IsTrue may ↔ MayBeGiven g.now.home (top_at g.now given) (progress t.now g.now)) }
{
    if may_stand_in_front(g, given)? {
        knows_names_below(g, t)
    } else {
        Ok(false)
    }
}

/// .. and memory sufficed to look.
pub(crate) fn is_given(g: &EnvGraph, t: &TypeTable, given: TopId) -> bool
    requires { HasTop g.now given }
    ensures { IsTrue result → MayBeGiven g.now.home (top_at g.now given) (progress t.now g.now) }
{
    match may_be_given(g, t, given) {
        Ok(may) => may,
        Err(_) => false,
    }
}
