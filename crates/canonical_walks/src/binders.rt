//! Signatures and functors in their canonical form.

ghost use Rattle.std.specs.Prelude.{◌≡◌, ◌++◌, IfOk, OnOk};
ghost use Rattle.sml_modules.specs.Items.{Item, at};
ghost use Rattle.sml_modules.specs.Graphs.{env_at, HasEnv, HasSignature, HasFunctor};
ghost use Rattle.sml_modules.specs.Adding.{Extends};
ghost use Rattle.realisation.specs.Canonical.{to_canonical, canonical_signature, canonical_functor};
ghost use Rattle.environment_walks.specs.Changing.{AreChanged};
ghost use Rattle.canonical_types.specs.Orders.{by_order};
ghost use Rattle.canonical_walks.specs.Binders.{unchanged, signature_with, functor_with, NoneBound, NamesFunctor, CanonAt, AreCanon, CanonRows};

use canonical_types::{FunctorNames, Numbering, bound_names, functor_names};
use cm_base::{List, NoMemory};
use env_parts::Rows;
use environment_walks::{Images, change_env, mapped_rows};
use name_walks::{names_of, names_of_all};
use semantic_objects::TyName;
use sml_modules::{EnvGraph, EnvId, FunId, FunNode, Node, SigId, SigNode};

/// A signature of this environment, whose bound names have their numbers.
fn numbered_signature(graph: &mut EnvGraph, env: EnvId) -> Result<usize, NoMemory>
    requires { HasEnv graph.old env }
    ensures extends { Extends graph.old graph.new }
    ensures is { IfOk result (λ place. at graph.new.items place
        ≡ Item.SignatureItem (canonical_signature unchanged (signature_with (env_at graph.old env)))) }
{
    let alloc = graph.alloc();
    let names = bound_names(alloc, &names_of(graph, env)?)?;
    let order = Numbering::new(alloc, &names)?;
    let mut images = Images::new(alloc);
    let made = change_env(graph, &order, env, &mut images)?;
    let bound = order.renamed_all(alloc, &names)?;
    graph.add(Node::Signature(SigNode {
        bound,
        env: made.place,
    }))
}

/// The canonical form of a signature, where these are the unit's own names.
fn canon_signature(
    graph: &mut EnvGraph,
    own: &Numbering,
    sig: SigId,
    images: &mut Images,
) -> Result<usize, NoMemory>
    requires there { HasSignature graph.old sig }
    requires own { NoneBound own.now }
    requires changed { AreChanged (to_canonical (by_order own.now)) graph.old.items images.old }
    ensures extends { Extends graph.old graph.new }
    ensures canon { IfOk result (CanonAt own.now graph.old graph.new images.new sig.place) }
{
    let parts = graph.read_sig(sig)?;
    let env = change_env(graph, own, parts.env, images)?;
    numbered_signature(graph, env)
}

/// The names of a functor in the order of their numbers: first those of its parameter.
fn functor_order(graph: &EnvGraph, names: &FunctorNames) -> Result<Numbering, NoMemory>
    ensures { IfOk result (λ order. order ≡ names.now.of_param ++ names.now.further) }
{
    let alloc = graph.alloc();
    let mut order = List::new(alloc);
    add_names(&mut order, &names.of_param)?;
    add_names(&mut order, &names.further)?;
    Numbering::new(alloc, &order)
}

/// Adds names to a list.
fn add_names(list: &mut List<TyName>, names: &List<TyName>) -> Result<(), NoMemory>
    ensures { OnOk result (list.new ≡ list.old ++ names.now) }
{
    for name in names.as_slice() {
        list.add(name.copy()?)?;
    }
    Ok(())
}

/// The names of a functor that binds these for its parameter.
fn names_of_functor(
    graph: &EnvGraph,
    bound: &List<TyName>,
    param: EnvId,
    body: EnvId,
) -> Result<FunctorNames, NoMemory>
    requires param { HasEnv graph.now param }
    requires body { HasEnv graph.now body }
    ensures { IfOk result (NamesFunctor (functor_with bound.now (env_at graph.now param) (env_at graph.now body))) }
{
    let alloc = graph.alloc();
    let mut envs = List::new(alloc);
    envs.add(param)?;
    envs.add(body)?;
    let names = names_of_all(graph, &envs)?;
    functor_names(alloc, &names, bound)
}

/// A functor of these environments, whose bound names have their numbers.
fn numbered_functor(
    graph: &mut EnvGraph,
    bound: &List<TyName>,
    param: EnvId,
    body: EnvId,
) -> Result<usize, NoMemory>
    requires param { HasEnv graph.old param }
    requires body { HasEnv graph.old body }
    ensures extends { Extends graph.old graph.new }
    ensures is { IfOk result (λ place. at graph.new.items place ≡ Item.FunctorItem (canonical_functor unchanged
        (functor_with bound.now (env_at graph.old param) (env_at graph.old body)))) }
{
    let alloc = graph.alloc();
    let names = names_of_functor(graph, bound, param, body)?;
    let order = functor_order(graph, &names)?;
    let mut images = Images::new(alloc);
    let param = change_env(graph, &order, param, &mut images)?;
    let body = change_env(graph, &order, body, &mut images)?;
    let bound = order.renamed_all(alloc, &names.of_param)?;
    let further = order.renamed_all(alloc, &names.further)?;
    graph.add(Node::Functor(FunNode {
        bound,
        param: param.place,
        further,
        result: body.place,
    }))
}

/// The canonical form of a functor or a signature of functors, where these are the unit's own names.
fn canon_functor(
    graph: &mut EnvGraph,
    own: &Numbering,
    fun: FunId,
    images: &mut Images,
) -> Result<usize, NoMemory>
    requires there { HasFunctor graph.old fun }
    requires own { NoneBound own.now }
    requires changed { AreChanged (to_canonical (by_order own.now)) graph.old.items images.old }
    ensures extends { Extends graph.old graph.new }
    ensures canon { IfOk result (CanonAt own.now graph.old graph.new images.new fun.place) }
{
    let parts = graph.read_fun(fun)?;
    let param = change_env(graph, own, parts.param, images)?;
    let body = change_env(graph, own, parts.result, images)?;
    numbered_functor(graph, &parts.bound, param, body)
}

/// The canonical form of the signature or the functor at a place.
fn canon_binder(
    graph: &mut EnvGraph,
    own: &Numbering,
    place: usize,
    images: &mut Images,
) -> Result<usize, NoMemory>
    requires own { NoneBound own.now }
    requires changed { AreChanged (to_canonical (by_order own.now)) graph.old.items images.old }
    ensures extends { Extends graph.old graph.new }
    ensures canon { IfOk result (CanonAt own.now graph.old graph.new images.new place) }
{
    if graph.has_signature(SigId { place }) {
        canon_signature(graph, own, SigId { place }, images)
    } else if graph.has_functor(FunId { place }) {
        canon_functor(graph, own, FunId { place }, images)
    } else {
        Err(NoMemory)
    }
}

/// Gives the signature or the functor at a place its canonical form, if it has none yet.
fn note_binder(
    graph: &mut EnvGraph,
    own: &Numbering,
    place: usize,
    images: &mut Images,
    made: &mut Images,
) -> Result<(), NoMemory>
    requires own { NoneBound own.now }
    requires changed { AreChanged (to_canonical (by_order own.now)) graph.old.items images.old }
    requires canon { AreCanon own.now graph.old.items made.old }
    ensures extends { Extends graph.old graph.new }
    ensures changed { OnOk result (AreChanged (to_canonical (by_order own.now)) graph.new.items images.new) }
    ensures canon { OnOk result (AreCanon own.now graph.new.items made.new) }
{
    if made.of(place).is_some() {
        return Ok(());
    }
    let image = canon_binder(graph, own, place, images)?;
    made.set(place, image)
}

/// Gives the signatures or the functors at some places their canonical forms.
fn note_binders(
    graph: &mut EnvGraph,
    own: &Numbering,
    places: &List<usize>,
    images: &mut Images,
) -> Result<Images, NoMemory>
    requires own { NoneBound own.now }
    requires changed { AreChanged (to_canonical (by_order own.now)) graph.old.items images.old }
    ensures extends { Extends graph.old graph.new }
    ensures changed { OnOk result (AreChanged (to_canonical (by_order own.now)) graph.new.items images.new) }
    ensures canon { IfOk result (AreCanon own.now graph.new.items) }
{
    let mut made = Images::new(graph.alloc());
    for place in places.as_slice() {
        note_binder(graph, own, *place, images, &mut made)?;
    }
    Ok(made)
}

/// Rows of signatures or of functors in their canonical form.
pub(crate) fn canon_rows(
    graph: &mut EnvGraph,
    own: &Numbering,
    rows: &Rows,
    images: &mut Images,
) -> Result<Rows, NoMemory>
    requires own { NoneBound own.now }
    requires changed { AreChanged (to_canonical (by_order own.now)) graph.old.items images.old }
    ensures extends { Extends graph.old graph.new }
    ensures changed { OnOk result (AreChanged (to_canonical (by_order own.now)) graph.new.items images.new) }
    ensures rows { IfOk result (CanonRows own.now graph.old.items rows.now graph.new.items) }
{
    let alloc = graph.alloc();
    let places = rows.places(alloc)?;
    let made = note_binders(graph, own, &places, images)?;
    mapped_rows(alloc, &made, rows)
}
