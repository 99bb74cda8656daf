//! Type structures and values with what is known put in for their variables.

ghost use Rattle.std.specs.Prelude.{◌≡◌, IfOk, map};
ghost use Rattle.type_nodes.specs.Tables.{state};
ghost use Rattle.realisation.specs.Environments.{Change, changed_con, changed_type, changed_value};
ghost use Rattle.type_walks.specs.Replaced.{Becomes};
ghost use Rattle.known_environments.specs.Known.{known_by};

use crate::knowing::Knowing;
use crate::trees::known_tree;
use cm_base::{List, NoMemory};
use env_parts::{type_facts, value_facts};
use semantic_objects::{ConEntry, Scheme, TypeFn, TypeStr, ValueEntry};
use std::alloc::Global;

/// A scheme as it is known. Its variables stay.
fn known_scheme(alloc: Global, by: &Knowing, scheme: &Scheme) -> Result<Scheme, NoMemory>
    ensures { IfOk result (λ made. made ≡ Change.scheme (known_by by.now) scheme.now) }
{
    let parts = scheme.parts(alloc)?;
    let body = known_tree(alloc, by, &parts.body)?;
    Scheme::make(parts.marks, body)
}

/// A type function as it is known.
fn known_function(alloc: Global, by: &Knowing, function: &TypeFn) -> Result<TypeFn, NoMemory>
    ensures { IfOk result (λ made. made ≡ Change.function (known_by by.now) function.now) }
{
    Ok(TypeFn {
        arity: function.arity,
        body: known_tree(alloc, by, &function.body)?,
    })
}

/// Constructors as they are known.
fn known_cons(
    alloc: Global,
    by: &Knowing,
    cons: &List<ConEntry>,
) -> Result<List<ConEntry>, NoMemory>
    ensures { IfOk result (λ made. made ≡ map (changed_con (known_by by.now)) cons.now) }
{
    let mut made = List::new(alloc);
    for con in cons.as_slice() {
        made.add(ConEntry {
            name: con.name.copy()?,
            scheme: known_scheme(alloc, by, &con.scheme)?,
        })?;
    }
    Ok(made)
}

/// A type structure as it is known, and none where no variable stands in it.
pub(crate) fn known_type(
    alloc: Global,
    by: &Knowing,
    entry: &TypeStr,
) -> Result<Option<TypeStr>, NoMemory>
    ensures { IfOk result (Becomes entry.now (changed_type (known_by by.now) entry.now)) }
{
    let facts = type_facts(alloc, entry)?;
    if !facts.has_free {
        return Ok(None);
    }
    let function = known_function(alloc, by, &entry.function)?;
    let cons = known_cons(alloc, by, &entry.cons)?;
    Ok(Some(TypeStr { function, cons }))
}

/// A value as it is known, and none where no variable stands in it.
pub(crate) fn known_value(
    alloc: Global,
    by: &Knowing,
    entry: &ValueEntry,
) -> Result<Option<ValueEntry>, NoMemory>
    ensures { IfOk result (Becomes entry.now (changed_value (known_by by.now) entry.now)) }
{
    let facts = value_facts(alloc, entry)?;
    if !facts.has_free {
        return Ok(None);
    }
    let scheme = known_scheme(alloc, by, &entry.scheme)?;
    Ok(Some(ValueEntry {
        status: entry.status,
        scheme,
    }))
}
