//! An `exception` declaration in an environment.

ghost use Rattle.std.specs.Prelude.{◌≡◌, map, IfOk, OnErr};
ghost use Rattle.semantic_objects.specs.declared.entry.ValueEntry.{ValueEntry};
ghost use Rattle.sml_trees.specs.declared.name.At.{At};
ghost use Rattle.sml_modules.specs.Graphs.{env_at, HasEnv, Keeps};
ghost use Rattle.bare_phrases.specs.Phrases.{DecPhrase};
ghost use Rattle.bare_phrases.specs.PhraseOf.{ex_phrase};
ghost use Rattle.static_semantics.specs.DatatypeInference.{exceptions_of};
ghost use Rattle.inference_laws.specs.Alike.{FirmEnv};
ghost use Rattle.core_soundness.specs.Following.{DeclaresByRules};
ghost use Rattle.core_scopes.specs.Scopes.{written_rows};
ghost use Rattle.type_phrases.specs.Inferred.{Answers, HaveRows, progress};
ghost use Rattle.exception_bindings.specs.Exceptions.{declared_in, env_of_values, Declares};

use crate::bindings::exception_values;
use cm_base::{Fault, List};
use core_scopes::InScope;
use pattern_elab::CoreScope;
use sml_modules::{EnvGraph, EnvId, NamedValue};
use sml_trees::ExBind;
use sml_types::TypeTable;
use std::alloc::Global;

/// What an `exception` declaration in an environment binds.
fn declared_values(
    alloc: Global,
    g: &EnvGraph,
    t: &mut TypeTable,
    env: EnvId,
    vars: &List<InScope>,
    binds: &List<ExBind>,
) -> Result<List<NamedValue>, Fault>
    requires env { HasEnv g.now env }
    requires vars { HaveRows t.old (written_rows vars.now) }
    ensures infers { Answers (exceptions_of (declared_in g.now t.old env vars.now) (map ex_phrase binds.now))
        env_of_values result }
    ensures same { t.new ≡ t.old }
{
    let mut scope = CoreScope::new(alloc, env);
    scope.bind_written(vars)?;
    exception_values(alloc, g, t, &scope, binds.as_slice())
}

/// The environment of an `exception` declaration in an environment, where these written type variables are in scope; of
/// two of one name the first counts. It answers 30, 34, 35 and 40 as `elab_exceptions` does. The table is as it was, and
/// no type name is made. A refusal leaves the graph as it was. A written type variable for which no variable of the
/// table stands that stands for itself, and a type function in which a variable of a table stands, are refused as want
/// of memory is. Where no variable of the table stands in the types of the environment, the rules give the declaration
/// this environment, wherever it stands. The Definition of Standard ML (Revised), rules 20, 30 and 31.
pub fn exceptions(
    g: &mut EnvGraph,
    t: &mut TypeTable,
    env: EnvId,
    vars: &List<InScope>,
    binds: &List<ExBind>,
) -> Result<EnvId, Fault>
    requires env { HasEnv g.old env }
    requires vars { HaveRows t.old (written_rows vars.now) }
    ensures infers { Answers (exceptions_of (declared_in g.old t.old env vars.now) (map ex_phrase binds.now))
        (env_at g.new) result }
    ensures sound { (at : At) → FirmEnv (env_at g.old env)
        → IfOk result (λ id. DeclaresByRules (declared_in g.old t.old env vars.now)
        (DecPhrase.Exceptions (map ex_phrase binds.now) at) (progress t.old g.old)
        (env_at g.new id, progress t.new g.new)) }
    ensures ok { IfOk result (Declares g.old g.new) }
    ensures same { t.new ≡ t.old }
    ensures refused { OnErr result (g.new ≡ g.old) }
{
    let alloc = g.alloc();
    let values = declared_values(alloc, g, t, env, vars, binds)?;
    let structures = List::new(alloc);
    let types = List::new(alloc);
    let made = g.make_env(&structures, types, values)?;
    Ok(made)
}
