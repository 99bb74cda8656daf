//! What holds where a declaration is looked at, for the proofs of callers. The call does nothing.

ghost use Rattle.type_nodes.specs.Keeping.{IsKept};
ghost use Rattle.structure_elab.specs.Moments.{moment};
ghost use Rattle.top_bindings.specs.Ready.{IsReadyTop};

use module_scopes::TopScope;
use sml_modules::EnvGraph;
use sml_types::TypeTable;

/// Everything in scope is fit for the top level, where that follows from what holds of every table.
pub(crate) fn is_ready_top(g: &EnvGraph, t: &TypeTable, top: &TopScope)
    requires { IsKept t.now → IsReadyTop (moment g.now t.now top.now) }
    ensures { IsReadyTop (moment g.now t.now top.now) }
{
    t.is_kept();
}
