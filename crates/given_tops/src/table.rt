//! Whether type names of a unit in what stands for the variables of a table have numbers below the next one. Each node of
//! the table is looked at once.

ghost use Rattle.std.specs.Prelude.{◌≡◌, ◌↔◌, ℕ, ◌<◌, [], ◌∷◌, length, IsTrue, IfOk};
ghost use Rattle.semantic_objects.specs.declared.name.TyId.TheVariants as id;
ghost use Rattle.semantic_objects.specs.declared.symbol.Symbol.TheVariants as symbol;
ghost use Rattle.type_nodes.specs.Tables.{Has, state};
ghost use Rattle.sml_types.specs.Looking.{ids_of};
ghost use Rattle.inference_laws.specs.Nodes.{StateOf, below_number};
ghost use Rattle.given_tops.specs.Names.{nodes_of};
ghost use Rattle.given_tops.specs.Knowing.{Says, SaysPart, SaysMade, SaysAll, AreTold};

use crate::names::{Limits, limits_of, name_may_stand};
use cm_base::{List, NoMemory};
use semantic_objects::{TyId, TyName};
use sml_modules::EnvGraph;
use sml_types::{Look, LookField, TypeTable};

/// The answer for a part: a variable is asked for by itself. A node without an answer is refused as want of memory is.
fn part_holds(
    t: &TypeTable,
    limits: &Limits,
    held: &List<bool>,
    part: TyId,
) -> Result<bool, NoMemory>
    requires { AreTold t.now (nodes_of limits.now) held.now }
    ensures { IfOk result (SaysPart t.now (nodes_of limits.now) part) }
{
    match part {
        TyId::Variable(_) => Ok(true),
        TyId::Made(at) => match held.get(at) {
            Some(holds) => Ok(*holds),
            None => Err(NoMemory),
        },
    }
}

/// The answer for the two sides of a function type.
fn sides_hold(
    t: &TypeTable,
    limits: &Limits,
    held: &List<bool>,
    from: TyId,
    to: TyId,
) -> Result<bool, NoMemory>
    requires { AreTold t.now (nodes_of limits.now) held.now }
    ensures { IfOk result (SaysAll t.now (nodes_of limits.now) (from ∷ to ∷ [])) }
{
    if part_holds(t, limits, held, from)? {
        part_holds(t, limits, held, to)
    } else {
        Ok(false)
    }
}

/// The answer for arguments.
fn args_hold(
    t: &TypeTable,
    limits: &Limits,
    held: &List<bool>,
    args: &List<TyId>,
) -> Result<bool, NoMemory>
    requires { AreTold t.now (nodes_of limits.now) held.now }
    ensures { IfOk result (SaysAll t.now (nodes_of limits.now) args.now) }
{
    for part in args.as_slice() {
        if !part_holds(t, limits, held, *part)? {
            return Ok(false);
        }
    }
    Ok(true)
}

/// The answer for fields.
fn fields_hold(
    t: &TypeTable,
    limits: &Limits,
    held: &List<bool>,
    fields: &List<LookField>,
) -> Result<bool, NoMemory>
    requires { AreTold t.now (nodes_of limits.now) held.now }
    ensures { IfOk result (SaysAll t.now (nodes_of limits.now) (ids_of fields.now)) }
{
    for field in fields.as_slice() {
        if !part_holds(t, limits, held, field.part)? {
            return Ok(false);
        }
    }
    Ok(true)
}

/// The answer for what is made of a name and arguments.
fn named_holds(
    t: &TypeTable,
    limits: &Limits,
    held: &List<bool>,
    name: &TyName,
    args: &List<TyId>,
) -> Result<bool, NoMemory>
    requires { AreTold t.now (nodes_of limits.now) held.now }
    ensures { IfOk result (SaysMade t.now (nodes_of limits.now) (symbol.Name name.now) args.now) }
{
    if name_may_stand(limits, name) {
        args_hold(t, limits, held, args)
    } else {
        Ok(false)
    }
}

/// The answer for what stands at an id, from those for nodes.
fn id_holds(t: &TypeTable, limits: &Limits, held: &List<bool>, id: TyId) -> Result<bool, NoMemory>
    requires has { Has t.now id }
    requires told { AreTold t.now (nodes_of limits.now) held.now }
    ensures { IfOk result (Says t.now (nodes_of limits.now) id) }
{
    match t.look(id)? {
        Look::Variable { .. } => Ok(true),
        Look::Arrow(from, to) => sides_hold(t, limits, held, from, to),
        Look::Record(fields) => fields_hold(t, limits, held, &fields),
        Look::Named(name, args) => named_holds(t, limits, held, &name, &args),
    }
}

/// The answers for all nodes, in their order.
fn nodes_hold(g: &EnvGraph, t: &TypeTable, limits: &Limits) -> Result<List<bool>, NoMemory>
    ensures { IfOk result (AreTold t.now (nodes_of limits.now)) }
{
    let count = t.mark().nodes();
    let mut held = List::new(g.alloc());
    for at in 0..count {
        let holds = id_holds(t, limits, &held, TyId::Made(at))?;
        held.add(holds)?;
    }
    Ok(held)
}

/// How many variables a table has.
fn variable_count(t: &TypeTable) -> usize
    ensures { result ≡ length t.now.births }
{
    t.mark().variables()
}

/// Whether the answer is yes for each variable.
fn variables_hold(t: &TypeTable, limits: &Limits, held: &List<bool>) -> Result<bool, NoMemory>
    requires { AreTold t.now (nodes_of limits.now) held.now }
    ensures { IfOk result (λ hold. IsTrue hold ↔ StateOf (nodes_of limits.now) (state t.now)) }
{
    t.is_kept();
    let count = variable_count(t);
    for at in 0..count {
        if !id_holds(t, limits, held, TyId::Variable(at))? {
            return Ok(false);
        }
    }
    Ok(true)
}

/// Whether the type names of the unit that the graph is at, in what stands for the variables of a table, have numbers below
/// the next one. Each variable and each node of the table is looked at once.
/// The Definition of Standard ML (Revised), section 4.1.
pub fn knows_names_below(g: &EnvGraph, t: &TypeTable) -> Result<bool, NoMemory>
    ensures { IfOk result (λ knows. IsTrue knows
        ↔ StateOf (below_number g.now.home (length g.now.made)) (state t.now)) }
{
    let limits = limits_of(g)?;
    let held = nodes_hold(g, t, &limits)?;
    variables_hold(t, &limits, &held)
}
