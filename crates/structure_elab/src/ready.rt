//! What holds where a phrase is looked at, for the proofs of callers. None of these calls does anything.

ghost use Rattle.type_nodes.specs.Keeping.{IsKept};
ghost use Rattle.structure_elab.specs.Moments.{moment};
ghost use Rattle.structure_elab.specs.Ready.{IsReadyAt, IsReadyBehind};

use core_scopes::Made;
use module_scopes::TopScope;
use pattern_elab::OwnVariable;
use sml_modules::EnvGraph;
use sml_types::TypeTable;

/// Everything in scope is of what the table knows, where that follows from what holds of every table.
pub(crate) fn is_ready(g: &EnvGraph, t: &TypeTable, top: &TopScope)
    requires { IsKept t.now → IsReadyAt (moment g.now t.now top.now) }
    ensures { IsReadyAt (moment g.now t.now top.now) }
{
    t.is_kept();
}

/// .. under what a declaration made.
pub(crate) fn is_ready_behind(g: &EnvGraph, t: &TypeTable, top: &TopScope, made: &Made<OwnVariable>)
    requires { IsKept t.now → IsReadyBehind (moment g.now t.now top.now) made.now }
    ensures { IsReadyBehind (moment g.now t.now top.now) made.now }
{
    t.is_kept();
}
