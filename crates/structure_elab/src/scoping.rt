//! What declarations make goes into scope, and out of it again.

ghost use Rattle.std.specs.Prelude.{◌≡◌, OnOk, OnErr};
ghost use Rattle.sml_modules.specs.Graphs.{Graph, HasEnvs};
ghost use Rattle.core_scopes.specs.Marks.{env_of_made, mark_of};
ghost use Rattle.pattern_elab.specs.Scopes.{own_entry};
ghost use Rattle.core_rules.specs.Joined.{joined};
ghost use Rattle.module_scopes.specs.declared.top.TopScope.{TopScope};
ghost use Rattle.structure_elab.specs.Moments.{GoesInto, IsOver};

use cm_base::NoMemory;
use core_rules::add_made;
use core_scopes::{Made, ScopeMark};
use module_scopes::TopScope;
use pattern_elab::OwnVariable;
use std::alloc::Global;

/// Enters what a declaration makes. A mark from before leaves it again. Want of memory leaves what is in scope as it was.
pub(crate) fn enter(top: &mut TopScope, made: Made<OwnVariable>) -> Result<(), NoMemory>
    ensures ok { OnOk result ((g : Graph) → HasEnvs g made.structures
        → GoesInto g (env_of_made g own_entry made) top.old top.new) }
{
    top.core.bind_made(made)?;
    Ok(())
}

/// .. and adds a copy to what the declarations before it make.
pub(crate) fn enter_next(
    alloc: Global,
    top: &mut TopScope,
    all: &mut Made<OwnVariable>,
    made: Made<OwnVariable>,
) -> Result<(), NoMemory>
    ensures all { OnOk result (all.new ≡ joined all.old made) }
    ensures ok { OnOk result ((g : Graph) → HasEnvs g made.structures
        → GoesInto g (env_of_made g own_entry made) top.old top.new) }
{
    add_made(alloc, all, &made)?;
    enter(top, made)
}

/// Makes what is in scope again what a mark remembers.
pub fn leave(top: &mut TopScope, to: ScopeMark)
    ensures { (past : TopScope) → to ≡ mark_of past.core → IsOver past top.old → top.new ≡ past }
{
    top.core.leave(to);
}
