//! What holds where a binding is looked at, for the proofs of callers. None of these calls does anything.

ghost use Rattle.sml_modules.specs.Graphs.{env_at};
ghost use Rattle.type_nodes.specs.Keeping.{IsKept};
ghost use Rattle.structure_elab.specs.Moments.{moment};
ghost use Rattle.structure_elab.specs.Ready.{IsReadyAt};
ghost use Rattle.top_bindings.specs.Ready.{IsReadyTop, IsReadyWith};

use module_scopes::TopScope;
use sml_modules::{EnvGraph, EnvId};
use sml_trees::Name;
use sml_types::TypeTable;

/// Everything in scope is of what the table knows, where that follows from what holds of every table.
pub(crate) fn is_ready(g: &EnvGraph, t: &TypeTable, top: &TopScope)
    requires { IsKept t.now → IsReadyAt (moment g.now t.now top.now) }
    ensures { IsReadyAt (moment g.now t.now top.now) }
{
    t.is_kept();
}

/// .. at the top level.
pub(crate) fn is_ready_top(g: &EnvGraph, t: &TypeTable, top: &TopScope)
    requires { IsKept t.now → IsReadyTop (moment g.now t.now top.now) }
    ensures { IsReadyTop (moment g.now t.now top.now) }
{
    t.is_kept();
}

/// .. with a functor's parameter.
pub(crate) fn is_ready_with(g: &EnvGraph, t: &TypeTable, top: &TopScope, param: &Name, env: EnvId)
    requires { IsKept t.now → IsReadyWith (moment g.now t.now top.now) param.now (env_at g.now env) }
    ensures { IsReadyWith (moment g.now t.now top.now) param.now (env_at g.now env) }
{
    t.is_kept();
}
