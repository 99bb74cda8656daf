//! Whole expressions and declarations.

ghost use Rattle.std.specs.Prelude.{◌≡◌, Err, IfOk, IsTrue, OnErr};
ghost use Rattle.cm_base.specs.declared.fault.Fault.TheVariants as fault;
ghost use Rattle.unification.specs.Unification.{depth};
ghost use Rattle.type_nodes.specs.Tables.{Has, type_of};
ghost use Rattle.sml_modules.specs.Graphs.{HasEnv, HasEnvs, Keeps, env_at};
ghost use Rattle.bare_phrases.specs.PhraseOf.{dec_phrase, exp_phrase};
ghost use Rattle.static_semantics.specs.Inferring.{outermost};
ghost use Rattle.static_semantics.specs.CoreInference.{infer_dec, infer_exp};
ghost use Rattle.core_scopes.specs.Marks.{env_of_made};
ghost use Rattle.type_phrases.specs.Inferred.{Answers, Inferred, KeepsTypes, progress};
ghost use Rattle.pattern_elab.specs.Scopes.{own_entry};
ghost use Rattle.environment_ages.specs.Below.{IsOfTable};
ghost use Rattle.closing_laws.specs.Promises.{IsOfState};
ghost use Rattle.elaboration_laws.specs.Declaring.{BindsValues, DecHas, ExpHas};
ghost use Rattle.core_soundness.specs.Following.{HasFirmTypes, HasTypeByRules, DeclaresByRules};

use crate::declared::elab_declared;
use crate::exp::elab_in_scope;
use cm_base::Fault;
use core_scopes::{Made, Scope};
use declaration_forms::make_declared;
use environment_ages::is_of_table;
use pattern_elab::{CoreScope, OwnVariable};
use semantic_objects::TyId;
use sml_modules::{EnvGraph, EnvId};
use sml_trees::{Dec, Exp};
use sml_types::TypeTable;
use std::alloc::Global;

/// Whether everything in an environment is of what the table knows, and memory sufficed to look.
fn is_known(g: &EnvGraph, t: &TypeTable, env: EnvId) -> bool
    requires { HasEnv g.now env }
    ensures of { IsTrue result → IsOfTable t.now (env_at g.now env) }
    ensures ready { IsTrue result → IsOfState (outermost g.now.home (env_at g.now env)) (progress t.now g.now) }
{
    match is_of_table(g, t, env) {
        Ok(of) => of,
        Err(_) => false,
    }
}

/// The type of an expression. The table may have more after a refusal.
fn type_in(
    alloc: Global,
    g: &mut EnvGraph,
    t: &mut TypeTable,
    env: EnvId,
    exp: &Exp,
) -> Result<TyId, Fault>
    requires env { HasEnv g.old env }
    requires ready { IsOfState (outermost g.old.home (env_at g.old env)) (progress t.old g.old) }
    ensures infers { Inferred (infer_exp depth (outermost g.old.home (env_at g.old env)) (exp_phrase exp.now)
        (progress t.old g.old)) result t.new g.new }
    ensures has { IfOk result (Has t.new) }
    ensures ids { KeepsTypes t.old t.new }
    ensures graph { Keeps g.old g.new }
    ensures home { g.new.home ≡ g.old.home }
{
    let mut scope: CoreScope = Scope::new(alloc, env);
    t.is_kept();
    elab_in_scope(alloc, g, t, &mut scope, exp)
}

/// The type of an expression in an environment of a graph, with no type variable written around it: 30 to 35, 37, 38, 40
/// or 41 where inference gives that, and the table is then as before. An environment in whose types a variable stands that
/// the table doesn't have is refused as want of memory is. Where the types in scope are firm and `rec` bindings bind
/// functions, as those of every source do, the rules give the expression this type. The Definition of Standard ML
/// (Revised), rules 1 to 14.
pub fn elab_exp(g: &mut EnvGraph, t: &mut TypeTable, env: EnvId, exp: &Exp) -> Result<TyId, Fault>
    requires { HasEnv g.old env }
    ensures infers { Inferred (infer_exp depth (outermost g.old.home (env_at g.old env)) (exp_phrase exp.now)
        (progress t.old g.old)) result t.new g.new }
    ensures sound { ExpHas BindsValues (exp_phrase exp.now)
        → HasFirmTypes (outermost g.old.home (env_at g.old env)) (progress t.old g.old)
        → IfOk result (λ id. HasTypeByRules (outermost g.old.home (env_at g.old env)) (exp_phrase exp.now)
        (progress t.old g.old) (type_of t.new id, progress t.new g.new)) }
    ensures foreign { (IsOfTable t.old (env_at g.old env) → ⊥) → result ≡ Err fault.NoMemory }
    ensures has { IfOk result (Has t.new) }
    ensures ids { KeepsTypes t.old t.new }
    ensures refused { OnErr result (t.new ≡ t.old) }
    ensures graph { Keeps g.old g.new }
    ensures home { g.new.home ≡ g.old.home }
{
    if !is_known(g, t, env) {
        return Err(Fault::NoMemory);
    }
    let alloc = g.alloc();
    let before = t.mark();
    match type_in(alloc, g, t, env, exp) {
        Ok(id) => Ok(id),
        Err(fault) => {
            t.undo(&before);
            Err(fault)
        }
    }
}

/// What a declaration makes. The table may have more after a refusal.
fn made_in(
    alloc: Global,
    g: &mut EnvGraph,
    t: &mut TypeTable,
    env: EnvId,
    dec: &Dec,
) -> Result<Made<OwnVariable>, Fault>
    requires env { HasEnv g.old env }
    requires ready { IsOfState (outermost g.old.home (env_at g.old env)) (progress t.old g.old) }
    ensures infers { Answers (infer_dec depth (outermost g.old.home (env_at g.old env)) (dec_phrase dec.now)
        (progress t.old g.old)) (λ made. (env_of_made g.new own_entry made, progress t.new g.new)) result }
    ensures envs { IfOk result (λ made. HasEnvs g.new made.structures) }
    ensures ids { KeepsTypes t.old t.new }
    ensures graph { Keeps g.old g.new }
    ensures home { g.new.home ≡ g.old.home }
{
    let mut scope: CoreScope = Scope::new(alloc, env);
    t.is_kept();
    elab_declared(alloc, g, t, &mut scope, dec)
}

/// The environment of a declaration. The table may have more after a refusal.
fn declare_in(
    alloc: Global,
    g: &mut EnvGraph,
    t: &mut TypeTable,
    env: EnvId,
    dec: &Dec,
) -> Result<EnvId, Fault>
    requires env { HasEnv g.old env }
    requires ready { IsOfState (outermost g.old.home (env_at g.old env)) (progress t.old g.old) }
    ensures infers { Answers (infer_dec depth (outermost g.old.home (env_at g.old env)) (dec_phrase dec.now)
        (progress t.old g.old)) (λ id. (env_at g.new id, progress t.new g.new)) result }
    ensures has { IfOk result (HasEnv g.new) }
    ensures ids { KeepsTypes t.old t.new }
    ensures graph { Keeps g.old g.new }
    ensures home { g.new.home ≡ g.old.home }
{
    let made = made_in(alloc, g, t, env, dec)?;
    let id = make_declared(alloc, g, made)?;
    Ok(id)
}

/// What a declaration binds in an environment of a graph, as an environment, with no type variable written around it: 30
/// to 35, 37, 38, 40 or 41 where inference gives that, and the table is then as before. An environment in whose types a
/// variable stands that the table doesn't have is refused as want of memory is. Types of values that stay open have
/// variables of the table. The environment is made once, with all that is bound. Where the types in scope are firm and
/// `rec` bindings bind functions, the rules give the declaration this environment. A declaration of structures is answered
/// as want of memory is. The Definition of Standard ML (Revised), rules 15 to 24.
pub fn elab_dec(g: &mut EnvGraph, t: &mut TypeTable, env: EnvId, dec: &Dec) -> Result<EnvId, Fault>
    requires { HasEnv g.old env }
    ensures infers { Answers (infer_dec depth (outermost g.old.home (env_at g.old env)) (dec_phrase dec.now)
        (progress t.old g.old)) (λ id. (env_at g.new id, progress t.new g.new)) result }
    ensures sound { DecHas BindsValues (dec_phrase dec.now)
        → HasFirmTypes (outermost g.old.home (env_at g.old env)) (progress t.old g.old)
        → IfOk result (λ id. DeclaresByRules (outermost g.old.home (env_at g.old env)) (dec_phrase dec.now)
        (progress t.old g.old) (env_at g.new id, progress t.new g.new)) }
    ensures foreign { (IsOfTable t.old (env_at g.old env) → ⊥) → result ≡ Err fault.NoMemory }
    ensures has { IfOk result (HasEnv g.new) }
    ensures ids { KeepsTypes t.old t.new }
    ensures refused { OnErr result (t.new ≡ t.old) }
    ensures graph { Keeps g.old g.new }
    ensures home { g.new.home ≡ g.old.home }
{
    if !is_known(g, t, env) {
        return Err(Fault::NoMemory);
    }
    let alloc = g.alloc();
    let begun = t.mark();
    match declare_in(alloc, g, t, env, dec) {
        Ok(id) => Ok(id),
        Err(fault) => {
            t.undo(&begun);
            Err(fault)
        }
    }
}
