//! Whether an environment is one of what a table knows.

ghost use Rattle.std.specs.Prelude.{◌↔◌, IsTrue, IfOk};
ghost use Rattle.type_nodes.specs.Keeping.{IsKept};
ghost use Rattle.sml_modules.specs.Graphs.{env_at, HasEnv};
ghost use Rattle.static_semantics.specs.Inferring.{outermost};
ghost use Rattle.type_phrases.specs.Inferred.{progress};
ghost use Rattle.closing_laws.specs.Promises.{IsOfState};
ghost use Rattle.environment_ages.specs.Below.{IsOfTable};

use crate::walk::is_below;
use cm_base::NoMemory;
use sml_modules::{EnvGraph, EnvId};
use sml_types::TypeTable;

/// Whether each variable of a table that stands in the types of an environment is one of this table. Then the scope that a
/// whole phrase begins with there is of what the table knows, so that a `val` may be closed by the age of variables.
pub fn is_of_table(g: &EnvGraph, t: &TypeTable, env: EnvId) -> Result<bool, NoMemory>
    requires { HasEnv g.now env }
    ensures of { IfOk result (λ of. IsTrue of ↔ IsOfTable t.now (env_at g.now env)) }
    ensures ready { IfOk result (λ of. IsTrue of
        → IsOfState (outermost g.now.home (env_at g.now env)) (progress t.now g.now)) }
{
    t.is_kept();
    let now = t.mark();
    is_below(g, env, now.variables())
}
