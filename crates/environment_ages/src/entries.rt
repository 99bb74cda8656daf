//! Whether the variables in an entry of an environment are among the first ones.

ghost use Rattle.std.specs.Prelude.{◌↔◌, IsTrue, IfOk};
ghost use Rattle.static_semantics.specs.Holding.{AllItems, ConHas, TypeHas, ValueHas};
ghost use Rattle.environment_ages.specs.Below.{SchemeBelow, FunctionBelow};

use crate::trees::{Limits, tree_holds};
use cm_base::{List, NoMemory};
use semantic_objects::{ConEntry, Scheme, TypeFn, TypeStr, ValueEntry};
use std::alloc::Global;

/// Whether the variables in a scheme are its own and the first ones of a table.
fn scheme_is_below(alloc: Global, count: usize, scheme: &Scheme) -> Result<bool, NoMemory>
    ensures { IfOk result (λ below. IsTrue below ↔ SchemeBelow count scheme.now) }
{
    let limits = Limits {
        own: Some(scheme.marks().len()),
        free: count,
    };
    tree_holds(alloc, limits, scheme.body())
}

/// Whether the variables of a table in a type function are the first ones.
fn function_is_below(alloc: Global, count: usize, function: &TypeFn) -> Result<bool, NoMemory>
    ensures { IfOk result (λ below. IsTrue below ↔ FunctionBelow count function.now) }
{
    let limits = Limits {
        own: None,
        free: count,
    };
    tree_holds(alloc, limits, &function.body)
}

/// .. in constructors.
fn cons_are_below(alloc: Global, count: usize, cons: &List<ConEntry>) -> Result<bool, NoMemory>
    ensures { IfOk result (λ below. IsTrue below ↔ AllItems (ConHas (SchemeBelow count)) cons.now) }
{
    for con in cons.as_slice() {
        if !scheme_is_below(alloc, count, &con.scheme)? {
            return Ok(false);
        }
    }
    Ok(true)
}

/// .. in a type structure.
pub(crate) fn type_is_below(alloc: Global, count: usize, entry: &TypeStr) -> Result<bool, NoMemory>
    ensures { IfOk result (λ below. IsTrue below ↔ TypeHas (SchemeBelow count) (FunctionBelow count) entry.now) }
{
    if function_is_below(alloc, count, &entry.function)? {
        cons_are_below(alloc, count, &entry.cons)
    } else {
        Ok(false)
    }
}

/// .. in a value.
pub(crate) fn value_is_below(
    alloc: Global,
    count: usize,
    entry: &ValueEntry,
) -> Result<bool, NoMemory>
    ensures { IfOk result (λ below. IsTrue below ↔ ValueHas (SchemeBelow count) entry.now) }
{
    scheme_is_below(alloc, count, &entry.scheme)
}
