//! What a declaration makes is entered behind others.

ghost use Rattle.std.specs.Prelude.{◌≡◌, false, OnOk, OnErr};
ghost use Rattle.bare_phrases.specs.PhraseOf.{dec_phrase};
ghost use Rattle.type_nodes.specs.Tables.{state};
ghost use Rattle.sml_modules.specs.Graphs.{Graph, HasEnvs};
ghost use Rattle.core_scopes.specs.Marks.{env_of_made};
ghost use Rattle.type_phrases.specs.Inferred.{KeepsTypes};
ghost use Rattle.pattern_elab.specs.Scopes.{own_entry};
ghost use Rattle.value_closing.specs.Under.{BindsGiven, IsUnder};
ghost use Rattle.core_rules.specs.Joined.{joined};
ghost use Rattle.core_elab.specs.Inside.{is_open};

use cm_base::NoMemory;
use core_rules::enter_behind;
use core_scopes::Made;
use pattern_elab::{CoreScope, OwnVariable};
use sml_trees::Dec;
use sml_types::TypeTable;
use std::alloc::Global;

/// Enters what a declaration makes, as `enter_behind` does; with the schemes of its values in the table unless it is an
/// `open` itself, since most of what that brings is never used.
pub(crate) fn enter_declared(
    alloc: Global,
    t: &mut TypeTable,
    scope: &mut CoreScope,
    all: &mut Made<OwnVariable>,
    made: Made<OwnVariable>,
    dec: &Dec,
) -> Result<(), NoMemory>
    ensures all { OnOk result (all.new ≡ joined all.old made) }
    ensures scope { OnOk result ((g : Graph) → HasEnvs g made.structures
        → IsUnder g t.new (env_of_made g own_entry made) scope.old scope.new) }
    ensures given { is_open (dec_phrase dec.now) ≡ false → OnOk result (BindsGiven made.values scope.old scope.new) }
    ensures state { OnOk result (state t.new ≡ state t.old) }
    ensures kept { KeepsTypes t.old t.new }
    ensures err { OnErr result (scope.new ≡ scope.old) }
{
    match dec {
        Dec::Open(_, _) => enter_behind(alloc, t, scope, all, made, false),
        _ => enter_behind(alloc, t, scope, all, made, true),
    }
}
