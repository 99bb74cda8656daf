//! What a declaration makes is entered into a scope.

ghost use Rattle.std.specs.Prelude.{◌≡◌, IsTrue, OnOk, OnErr};
ghost use Rattle.type_nodes.specs.Tables.{state};
ghost use Rattle.sml_modules.specs.Graphs.{Graph, HasEnvs};
ghost use Rattle.core_scopes.specs.Marks.{env_of_made};
ghost use Rattle.type_phrases.specs.Inferred.{KeepsTypes};
ghost use Rattle.pattern_elab.specs.Scopes.{own_entry};
ghost use Rattle.value_closing.specs.Under.{BindsGiven, IsUnder};

use crate::schemes::bound_values;
use cm_base::NoMemory;
use core_scopes::{Made, MadeBound};
use pattern_elab::{CoreScope, OwnVariable};
use sml_types::TypeTable;
use std::alloc::Global;

/// Enters what a declaration makes into the scope in which it stands; with the schemes of its values into the table where
/// that is asked for, so that a use of a value copies no more of its type than what the scheme's variables stand in. Where
/// it isn't, since most of what an `open` brings is never used, each use copies the whole type. A mark from before leaves
/// the scope again. A scheme that is asked for, in which a variable is free that the table doesn't have, is refused as want
/// of memory is, and that leaves the scope as it was. The Definition of Standard ML (Revised), section 4.3.
pub fn enter_made(
    alloc: Global,
    t: &mut TypeTable,
    scope: &mut CoreScope,
    made: Made<OwnVariable>,
    with_schemes: bool,
) -> Result<(), NoMemory>
    ensures ok { OnOk result ((g : Graph) → HasEnvs g made.structures
        → IsUnder g t.new (env_of_made g own_entry made) scope.old scope.new) }
    ensures given { IsTrue with_schemes → OnOk result (BindsGiven made.values scope.old scope.new) }
    ensures state { OnOk result (state t.new ≡ state t.old) }
    ensures kept { KeepsTypes t.old t.new }
    ensures err { OnErr result (scope.new ≡ scope.old) }
{
    let Made {
        structures,
        types,
        values,
    } = made;
    let values = bound_values(alloc, t, values, with_schemes)?;
    scope.bind_entered(MadeBound {
        structures,
        types,
        values,
    })?;
    Ok(())
}
