//! Whether what stands at a top may be given to a unit.

ghost use Rattle.std.specs.Prelude.{◌≡◌, ◌↔◌, ℕ, [], length, IsTrue, IfOk, OnOk};
ghost use Rattle.sml_modules.specs.Items.{at, as_signature, as_functor, map_rows};
ghost use Rattle.sml_modules.specs.Graphs.{top_at, HasTop};
ghost use Rattle.inference_laws.specs.Nodes.{below_number};
ghost use Rattle.unit_semantics.specs.Promises.{IsClosedTop};
ghost use Rattle.unit_laws.specs.Parts.{AreBoundFrom, TopOf};
ghost use Rattle.table_laws.specs.Rising.{TableWith, RisingTop};
ghost use Rattle.given_tops.specs.Names.{nodes_of};
ghost use Rattle.given_tops.specs.Fitting.{SignatureFits, FunctorFits, TopFits};
ghost use Rattle.given_tops.specs.Walking.{AreFit};

use crate::names::{Limits, are_bound_from, limits_of};
use crate::walk::{env_fits, rise};
use cm_base::NoMemory;
use env_parts::Rows;
use environment_walks::Images;
use sml_modules::{EnvGraph, FunNode, Node, TopId};

/// Whether the signature at a place may be given.
fn signature_fits(
    g: &EnvGraph,
    limits: &Limits,
    place: usize,
    done: &mut Images,
) -> Result<bool, NoMemory>
    requires { AreFit (nodes_of limits.now) g.now.items done.old }
    ensures fit { OnOk result (AreFit (nodes_of limits.now) g.now.items done.new) }
    ensures fits { IfOk result (λ fits. IsTrue fits
        ↔ SignatureFits (nodes_of limits.now) (as_signature (at g.now.items place))) }
{
    match g.node_at(place) {
        Some(node) => match node {
            Node::Signature(sig) => {
                if are_bound_from(0, &sig.bound) {
                    env_fits(g, limits, sig.env, done)
                } else {
                    Ok(false)
                }
            }
            _ => Err(NoMemory),
        },
        None => Err(NoMemory),
    }
}

/// Whether the names that a functor binds are bound ones, numbered one after another.
fn binds_in_order(fun: &FunNode) -> bool
    ensures { IsTrue result
        ↔ (AreBoundFrom 0 fun.now.bound × AreBoundFrom (length fun.now.bound) fun.now.further) }
{
    let count = fun.bound.as_slice().len();
    are_bound_from(0, &fun.bound) && are_bound_from(count, &fun.further)
}

/// Whether the functor, or the signature of functors, at a place may be given.
fn functor_fits(
    g: &EnvGraph,
    limits: &Limits,
    place: usize,
    done: &mut Images,
) -> Result<bool, NoMemory>
    requires { AreFit (nodes_of limits.now) g.now.items done.old }
    ensures fit { OnOk result (AreFit (nodes_of limits.now) g.now.items done.new) }
    ensures fits { IfOk result (λ fits. IsTrue fits
        ↔ FunctorFits (nodes_of limits.now) (as_functor (at g.now.items place))) }
{
    match g.node_at(place) {
        Some(node) => match node {
            Node::Functor(fun) => {
                if !binds_in_order(fun) {
                    return Ok(false);
                }
                if env_fits(g, limits, fun.param, done)? {
                    env_fits(g, limits, fun.result, done)
                } else {
                    Ok(false)
                }
            }
            _ => Err(NoMemory),
        },
        None => Err(NoMemory),
    }
}

/// Whether all signatures of a table may be given.
fn signatures_fit(
    g: &EnvGraph,
    limits: &Limits,
    rows: &Rows,
    done: &mut Images,
) -> Result<bool, NoMemory>
    requires { AreFit (nodes_of limits.now) g.now.items done.old }
    ensures fit { OnOk result (AreFit (nodes_of limits.now) g.now.items done.new) }
    ensures fits { IfOk result (λ fits. IsTrue fits ↔ TableWith (SignatureFits (nodes_of limits.now))
        (map_rows (λ p. as_signature (at g.now.items p)) rows.now)) }
{
    rise(g.alloc(), rows)?;
    let places = rows.places(g.alloc())?;
    for place in places.as_slice() {
        if !signature_fits(g, limits, *place, done)? {
            return Ok(false);
        }
    }
    Ok(true)
}

/// Whether all functors of a table may be given.
fn functors_fit(
    g: &EnvGraph,
    limits: &Limits,
    rows: &Rows,
    done: &mut Images,
) -> Result<bool, NoMemory>
    requires { AreFit (nodes_of limits.now) g.now.items done.old }
    ensures fit { OnOk result (AreFit (nodes_of limits.now) g.now.items done.new) }
    ensures fits { IfOk result (λ fits. IsTrue fits ↔ TableWith (FunctorFits (nodes_of limits.now))
        (map_rows (λ p. as_functor (at g.now.items p)) rows.now)) }
{
    rise(g.alloc(), rows)?;
    let places = rows.places(g.alloc())?;
    for place in places.as_slice() {
        if !functor_fits(g, limits, *place, done)? {
            return Ok(false);
        }
    }
    Ok(true)
}

/// Whether what stands at a top may be given.
fn top_fits(g: &EnvGraph, limits: &Limits, given: TopId) -> Result<bool, NoMemory>
    requires { HasTop g.now given }
    ensures { IfOk result (λ fits. IsTrue fits ↔ TopFits (nodes_of limits.now) (top_at g.now given)) }
{
    let tables = g.top_tables(given)?;
    let mut done = Images::new(g.alloc());
    if !env_fits(g, limits, tables.env, &mut done)? {
        return Ok(false);
    }
    if !signatures_fit(g, limits, &tables.signatures, &mut done)? {
        return Ok(false);
    }
    if functors_fit(g, limits, &tables.functors, &mut done)? {
        functors_fit(g, limits, &tables.funsigs, &mut done)
    } else {
        Ok(false)
    }
}

/// Whether what stands at a top may be given to the unit that the graph is at, in front of the initial basis: the unit's
/// type names in it have numbers below the next one, names are bound in order where they are bound, its tables rise, and
/// no type variable of a table stands in it. Each node of the graph is gone through once, and each node of a type there.
/// The Definition of Standard ML (Revised), sections 4.2 and 5.1.
pub fn may_stand_in_front(g: &EnvGraph, given: TopId) -> Result<bool, NoMemory>
    requires { HasTop g.now given }
    ensures { IfOk result (λ may. IsTrue may ↔ (TopOf (below_number g.now.home (length g.now.made)) (top_at g.now given)
        × RisingTop (top_at g.now given) × IsClosedTop (top_at g.now given))) }
{
    let limits = limits_of(g)?;
    top_fits(g, &limits, given)
}
