//! Signatures, functors, and signatures of functors.

ghost use Rattle.std.specs.Prelude.{◌≡◌, ℕ, List, IfOk};
ghost use Rattle.realisation.specs.Names.{names_in_env};
ghost use Rattle.realisation.specs.Canonical.{met, is_bound_name};
ghost use Rattle.interface_format.specs.Rules.{is_beyond};
ghost use Rattle.sml_modules.specs.Items.{at, as_env, IsEnv};
ghost use Rattle.sml_modules.specs.Adding.{Extends};
ghost use Rattle.row_binders.specs.Binders.{HaveEnvs, FindsSignature, FindsFunctor};
ghost use Rattle.row_binders.specs.Binders.{FormsSignature, FormsFunctor, PlacesSignature, PlacesFunctor};

use crate::numbers::are_counted;
use canonical_types::{bound_names, functor_names};
use cm_base::{List, NoMemory};
use name_walks::names_of;
use node_bytes::Row;
use row_environments::place_at;
use row_forms::{CountedForm, FunctorForm, counted_form, functor_form};
use semantic_objects::TyName;
use sml_modules::{EnvGraph, EnvId, FunNode, Node, SigNode};

/// The names that a signature over an environment binds.
fn names_bound(graph: &EnvGraph, env: usize) -> Result<List<TyName>, NoMemory>
    requires { IsEnv (at graph.now.items env) }
    ensures { IfOk result (λ bound.
        bound ≡ met is_bound_name (names_in_env (as_env (at graph.now.items env)))) }
{
    let names = names_of(graph, EnvId { place: env })?;
    bound_names(graph.alloc(), &names)
}

/// The names that a functor with this result binds beyond those of its parameter.
fn names_beyond(
    graph: &EnvGraph,
    bound: &List<TyName>,
    env: usize,
) -> Result<List<TyName>, NoMemory>
    requires { IsEnv (at graph.now.items env) }
    ensures { IfOk result (λ further.
        further ≡ met (is_beyond bound.now) (names_in_env (as_env (at graph.now.items env)))) }
{
    let names = names_of(graph, EnvId { place: env })?;
    Ok(functor_names(graph.alloc(), &names, bound)?.further)
}

/// The place of a signature over an environment, if its bound names are numbered, and so many.
fn signature_over(graph: &mut EnvGraph, env: usize, count: u32) -> Result<Option<usize>, NoMemory>
    requires { IsEnv (at graph.old.items env) }
    ensures extends { Extends graph.old graph.new }
    ensures is { IfOk result (FindsSignature (as_env (at graph.old.items env)) count graph.new.items) }
{
    let bound = names_bound(graph, env)?;
    if !are_counted(&bound, 0, count) {
        return Ok(None);
    }
    let place = graph.add(Node::Signature(SigNode { bound, env }))?;
    Ok(Some(place))
}

/// The place of the signature that has these fields.
fn counted_signature(
    graph: &mut EnvGraph,
    envs: &List<Option<usize>>,
    form: CountedForm,
) -> Result<Option<usize>, NoMemory>
    requires { (home : List ℕ) × HaveEnvs home graph.old.items envs.now }
    ensures extends { Extends graph.old graph.new }
    ensures is { IfOk result (FormsSignature envs.now graph.old.items form graph.new.items) }
{
    match place_at(envs, form.place)? {
        Some(env) => signature_over(graph, env, form.count),
        None => Ok(None),
    }
}

/// The place of the signature that a row is.
pub(crate) fn signature_row(
    graph: &mut EnvGraph,
    envs: &List<Option<usize>>,
    row: &Row,
) -> Result<Option<usize>, NoMemory>
    requires { (home : List ℕ) × HaveEnvs home graph.old.items envs.now }
    ensures extends { Extends graph.old graph.new }
    ensures is { IfOk result (PlacesSignature envs.now graph.old.items row.now graph.new.items) }
{
    match row.tag {
        9 => match counted_form(row.items.as_slice()) {
            Some(form) => counted_signature(graph, envs, form),
            None => Ok(None),
        },
        _ => Ok(None),
    }
}

/// The place of a functor over two environments, if its names are numbered, and so many.
fn functor_over(
    graph: &mut EnvGraph,
    form: FunctorForm,
    param: usize,
    body: usize,
) -> Result<Option<usize>, NoMemory>
    requires param { IsEnv (at graph.old.items param) }
    requires body { IsEnv (at graph.old.items body) }
    ensures extends { Extends graph.old graph.new }
    ensures is { IfOk result (FindsFunctor (as_env (at graph.old.items param)) (as_env (at graph.old.items body))
        form graph.new.items) }
{
    let bound = names_bound(graph, param)?;
    if !are_counted(&bound, 0, form.bound) {
        return Ok(None);
    }
    let further = names_beyond(graph, &bound, body)?;
    if !are_counted(&further, form.bound, form.further) {
        return Ok(None);
    }
    let place = graph.add(Node::Functor(FunNode {
        bound,
        param,
        further,
        result: body,
    }))?;
    Ok(Some(place))
}

/// The place of the functor that has these fields.
fn counted_functor(
    graph: &mut EnvGraph,
    envs: &List<Option<usize>>,
    form: FunctorForm,
) -> Result<Option<usize>, NoMemory>
    requires { (home : List ℕ) × HaveEnvs home graph.old.items envs.now }
    ensures extends { Extends graph.old graph.new }
    ensures is { IfOk result (FormsFunctor envs.now graph.old.items form graph.new.items) }
{
    let Some(param) = place_at(envs, form.param)? else {
        return Ok(None);
    };
    let Some(body) = place_at(envs, form.body)? else {
        return Ok(None);
    };
    functor_over(graph, form, param, body)
}

/// The place of the functor that a row is.
pub(crate) fn functor_row(
    graph: &mut EnvGraph,
    envs: &List<Option<usize>>,
    row: &Row,
) -> Result<Option<usize>, NoMemory>
    requires { (home : List ℕ) × HaveEnvs home graph.old.items envs.now }
    ensures extends { Extends graph.old graph.new }
    ensures is { IfOk result (PlacesFunctor envs.now graph.old.items row.now graph.new.items) }
{
    match row.tag {
        10 => match functor_form(row.items.as_slice()) {
            Some(form) => counted_functor(graph, envs, form),
            None => Ok(None),
        },
        _ => Ok(None),
    }
}
