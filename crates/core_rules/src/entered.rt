//! Scopes that the variables of patterns are entered into.

ghost use Rattle.std.specs.Prelude.{◌≡◌, OnOk, OnErr};
ghost use Rattle.sml_modules.specs.Graphs.{Graph};
ghost use Rattle.core_scopes.specs.Marks.{IsFrontOf};
ghost use Rattle.core_rules.specs.Entered.{IsEntered};

use cm_base::{NoMemory, Text};
use core_scopes::ValueInScope;
use name_trails::NameTrail;
use pattern_elab::{CoreScope, OwnVariable};

/// Binds variables of patterns in their order. After want of memory some of them may be bound.
#[tactic(auto, using(crate::proofs::Entering::front_same))]
fn bind_rows(scope: &mut CoreScope, rows: &[(Text, OwnVariable)]) -> Result<(), NoMemory>
    requires { IsFrontOf scope.old scope.old }
    ensures ok { OnOk result ((g : Graph) → IsEntered g rows.now scope.old scope.new) }
    ensures front { IsFrontOf scope.old scope.new }
{
    for row in rows {
        scope.bind_value(row.0.copy()?, ValueInScope::Own(row.1))?;
    }
    Ok(())
}

/// Enters the variables that patterns bound into a scope, in as many steps as there are variables. What they stand for
/// isn't closed. A mark from before leaves them again. Want of memory leaves the scope as it was.
/// The Definition of Standard ML (Revised), rules 14 and 26.
pub fn enter_variables(
    scope: &mut CoreScope,
    bound: &NameTrail<OwnVariable>,
) -> Result<(), NoMemory>
    ensures ok { OnOk result ((g : Graph) → IsEntered g bound.now scope.old scope.new) }
    ensures err { OnErr result (scope.new ≡ scope.old) }
{
    let before = scope.mark();
    match bind_rows(scope, bound.rows()) {
        Ok(()) => Ok(()),
        Err(NoMemory) => {
            scope.leave(before);
            Err(NoMemory)
        }
    }
}
