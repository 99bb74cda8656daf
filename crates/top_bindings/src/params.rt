//! The parameters of functors.

ghost use Rattle.std.specs.Prelude.{OnOk};
ghost use Rattle.semantic_objects.specs.Environments.{empty_env, with_structure};
ghost use Rattle.sml_modules.specs.Graphs.{Graph, env_at, HasEnv};
ghost use Rattle.structure_elab.specs.Moments.{GoesInto};

use cm_base::{NoMemory, Text};
use module_scopes::{TopScope, enter_parameter};
use sml_modules::EnvId;

/// Enters a functor's parameter. The Definition of Standard ML (Revised), rule 86.
pub(crate) fn enter(top: &mut TopScope, name: &Text, env: EnvId) -> Result<(), NoMemory>
    ensures { OnOk result ((g : Graph) → HasEnv g env
        → GoesInto g (with_structure name.now (env_at g env) empty_env) top.old top.new) }
{
    enter_parameter(&mut top.core, name, env)
}
