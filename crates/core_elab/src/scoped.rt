//! Declarations in the scope of a phrase around them.

ghost use Rattle.std.specs.Prelude.{◌≡◌, IfOk};
ghost use Rattle.unification.specs.Unification.{depth};
ghost use Rattle.sml_modules.specs.Graphs.{HasEnvs, Keeps};
ghost use Rattle.bare_phrases.specs.PhraseOf.{dec_phrase};
ghost use Rattle.static_semantics.specs.CoreInference.{infer_dec};
ghost use Rattle.core_scopes.specs.Marks.{env_of_made};
ghost use Rattle.type_phrases.specs.Inferred.{Answers, KeepsTypes, progress};
ghost use Rattle.pattern_elab.specs.Scopes.{own_entry, scope_of, IsCoreScope};
ghost use Rattle.closing_laws.specs.Promises.{IsOfState};

use crate::declared::elab_declared;
use cm_base::Fault;
use core_scopes::Made;
use pattern_elab::{CoreScope, OwnVariable};
use sml_modules::EnvGraph;
use sml_trees::Dec;
use sml_types::TypeTable;
use std::alloc::Global;

/// What a declaration binds in a scope, which is left as it was: 30 to 35, 37, 38, 40 or 41 where inference gives that.
/// What is in scope is of what the table knows. No environment is made. After a refusal the table may have more. A
/// declaration of structures is answered as want of memory is. The Definition of Standard ML (Revised), rules 15 to 24.
pub fn elab_dec_in(
    alloc: Global,
    g: &mut EnvGraph,
    t: &mut TypeTable,
    scope: &mut CoreScope,
    dec: &Dec,
) -> Result<Made<OwnVariable>, Fault>
    requires scope { IsCoreScope g.old t.old scope.old }
    requires ready { IsOfState (scope_of g.old scope.old) (progress t.old g.old) }
    ensures infers { Answers (infer_dec depth (scope_of g.old scope.old) (dec_phrase dec.now) (progress t.old g.old))
        (λ made. (env_of_made g.new own_entry made, progress t.new g.new)) result }
    ensures envs { IfOk result (λ made. HasEnvs g.new made.structures) }
    ensures ids { KeepsTypes t.old t.new }
    ensures graph { Keeps g.old g.new }
    ensures home { g.new.home ≡ g.old.home }
    ensures left { scope.new ≡ scope.old }
{
    t.is_kept();
    elab_declared(alloc, g, t, scope, dec)
}
