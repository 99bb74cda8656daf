//! Functors of their parameters and results.

ghost use Rattle.std.specs.Prelude.{◌≡◌, ◌++◌, length, IfOk, OnErr};
ghost use Rattle.sml_modules.specs.Graphs.{env_at, signature_of, HasEnv, HasSigParts, Keeps, GivesFunctor};
ghost use Rattle.type_walks.specs.Replaced.{rows_of};
ghost use Rattle.module_semantics.specs.SignatureNames.{bound_names as bound_from, rows_between as rows_from};
ghost use Rattle.unit_semantics.specs.UnitInference.{functor_of, names_since as names_made};
ghost use Rattle.functor_closing.specs.Closed.{functor_by};

use crate::names::{bound_names, joined};
use crate::rows::rows_between;
use crate::since::names_since;
use cm_base::{List, NoMemory};
use env_parts::copy_names;
use environment_walks::{Realisation, realise};
use semantic_objects::TyName;
use sml_modules::{EnvGraph, EnvId, FunId, FunParts, SigParts};
use std::alloc::Global;

/// What stands for the names that a functor binds and its further ones: the bound names of the further ones, and the
/// realisation that puts bound names in place of those that stood in the functor.
#[derive(Drop)]
struct Closing {
    further: List<TyName>,
    by: Realisation,
}

/// The names by which a functor is closed.
fn closing_names(
    alloc: Global,
    bound: &List<TyName>,
    inside: &List<TyName>,
    names: &List<TyName>,
) -> Result<Closing, NoMemory>
    ensures further { IfOk result (λ made. made.further ≡ bound_from (length bound.now) names.now) }
    ensures rows { IfOk result (λ made. rows_of made.by.list ≡ rows_from (inside.now ++ names.now)
        (bound.now ++ bound_from (length bound.now) names.now)) }
{
    let further = bound_names(alloc, bound.len() as u64, names.as_slice())?;
    let olds = joined(alloc, inside, names)?;
    let news = joined(alloc, bound, &further)?;
    let by = rows_between(alloc, olds.as_slice(), news.as_slice())?;
    Ok(Closing { further, by })
}

/// The functor of its names, its parameter, and a body in which the names are realised.
#[tactic(auto, using(crate::proofs::Growing::keeps_same, crate::proofs::Growing::keeps_equal))]
fn put_functor(
    g: &mut EnvGraph,
    bound: List<TyName>,
    param: EnvId,
    closing: Closing,
    body: EnvId,
) -> Result<FunId, NoMemory>
    requires param { HasEnv g.old param }
    requires body { HasEnv g.old body }
    ensures ok { IfOk result (GivesFunctor g.old g.new
        (functor_by bound (env_at g.old param) closing.further closing.by.list (env_at g.old body))) }
    ensures err { OnErr result (Keeps g.old g.new) }
    ensures home { g.new.home ≡ g.old.home }
{
    let Closing { further, by } = closing;
    let result = realise(g, body, &by)?;
    g.make_fun(&FunParts {
        bound,
        param,
        further,
        result,
    })
}

/// The functor, or signature of functors, of a parameter and a result: `param` is the parameter's signature as it is
/// finished, `inside` the same with the names that it had in the functor, and `names` are the further names of the
/// result. The result's environment gets bound names for both. Want of memory may leave nodes behind.
/// The Definition of Standard ML (Revised), rule 86.
#[tactic(auto, using(crate::proofs::Growing::keeps_same))]
pub fn make_functor(
    alloc: Global,
    g: &mut EnvGraph,
    param: &SigParts,
    inside: &SigParts,
    names: &List<TyName>,
    body: EnvId,
) -> Result<FunId, NoMemory>
    requires param { HasSigParts g.old param.now }
    requires body { HasEnv g.old body }
    ensures ok { IfOk result (GivesFunctor g.old g.new
        (functor_of (signature_of g.old param.now) (signature_of g.old inside.now) names.now (env_at g.old body))) }
    ensures err { OnErr result (Keeps g.old g.new) }
    ensures home { g.new.home ≡ g.old.home }
{
    let closing = closing_names(alloc, &param.bound, &inside.bound, names)?;
    let bound = copy_names(alloc, &param.bound)?;
    put_functor(g, bound, param.env, closing, body)
}

/// The functor of a parameter and a body: its further names are those that the unit made from a number on and that occur
/// in the body. The body's other names stay. Want of memory may leave nodes behind.
/// The Definition of Standard ML (Revised), rule 86.
#[tactic(auto, using(crate::proofs::Growing::keeps_same))]
pub fn close_functor(
    alloc: Global,
    g: &mut EnvGraph,
    param: &SigParts,
    inside: &SigParts,
    number: u64,
    body: EnvId,
) -> Result<FunId, NoMemory>
    requires param { HasSigParts g.old param.now }
    requires body { HasEnv g.old body }
    ensures ok { IfOk result (GivesFunctor g.old g.new
        (functor_of (signature_of g.old param.now) (signature_of g.old inside.now)
        (names_made g.old.home number (env_at g.old body)) (env_at g.old body))) }
    ensures err { OnErr result (Keeps g.old g.new) }
    ensures home { g.new.home ≡ g.old.home }
{
    let names = names_since(g, number, body)?;
    make_functor(alloc, g, param, inside, &names, body)
}
