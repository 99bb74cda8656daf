//! Whether an entry of an environment may be given.

ghost use Rattle.std.specs.Prelude.{◌≡◌, ◌↔◌, IsTrue, IfOk};
ghost use Rattle.std.specs.Ordering.{nat_cmp};
ghost use Rattle.std.specs.declared.cmp.Ordering.TheVariants.{Less};
ghost use Rattle.std.specs.Cmp.Lexicographic.{slice_cmp};
ghost use Rattle.semantic_objects.specs.Symbols.{AreRising};
ghost use Rattle.semantic_objects.specs.Tables.{names_of};
ghost use Rattle.static_semantics.specs.Holding.{AllItems, ConHas, ValueHas};
ghost use Rattle.table_laws.specs.Rising.{con_table};
ghost use Rattle.given_tops.specs.Names.{nodes_of};
ghost use Rattle.given_tops.specs.Fitting.{SchemeFits, FunctionFits, TypeFits};

use crate::names::Limits;
use crate::trees::tree_fits;
use cm_base::{List, NoMemory, Text};
use semantic_objects::{ConEntry, Scheme, TypeFn, TypeStr, ValueEntry};
use std::alloc::Global;
use std::cmp::Ordering;

/// Whether what stands in a scheme may be given.
fn scheme_fits(alloc: Global, limits: &Limits, scheme: &Scheme) -> Result<bool, NoMemory>
    ensures { IfOk result (λ fits. IsTrue fits ↔ SchemeFits (nodes_of limits.now) scheme.now) }
{
    tree_fits(alloc, limits, scheme.marks().len(), scheme.body())
}

/// Whether what stands in a type function may be given.
fn function_fits(alloc: Global, limits: &Limits, function: &TypeFn) -> Result<bool, NoMemory>
    ensures { IfOk result (λ fits. IsTrue fits ↔ FunctionFits (nodes_of limits.now) function.now) }
{
    tree_fits(alloc, limits, function.arity as usize, &function.body)
}

/// .. in constructors.
fn cons_fit(alloc: Global, limits: &Limits, cons: &List<ConEntry>) -> Result<bool, NoMemory>
    ensures { IfOk result (λ fit. IsTrue fit ↔ AllItems (ConHas (SchemeFits (nodes_of limits.now))) cons.now) }
{
    for con in cons.as_slice() {
        if !scheme_fits(alloc, limits, &con.scheme)? {
            return Ok(false);
        }
    }
    Ok(true)
}

/// Whether a text stands before another in byte order.
fn is_before(a: &Text, b: &Text) -> bool
    ensures { IsTrue result ↔ (slice_cmp nat_cmp a.now b.now ≡ Less) }
{
    a.cmp(b) == Ordering::Less
}

/// Whether the names of constructors rise.
fn cons_rise(cons: &[ConEntry]) -> bool
    ensures { IsTrue result ↔ AreRising (names_of (con_table cons.now)) }
{
    for at in 1..cons.len() {
        if !is_before(&cons[at - 1].name, &cons[at].name) {
            return false;
        }
    }
    true
}

/// Whether a type structure may be given. Its constructors rise.
pub(crate) fn type_fits(alloc: Global, limits: &Limits, entry: &TypeStr) -> Result<bool, NoMemory>
    ensures { IfOk result (λ fits. IsTrue fits ↔ TypeFits (nodes_of limits.now) entry.now) }
{
    if !cons_rise(entry.cons.as_slice()) {
        return Ok(false);
    }
    if function_fits(alloc, limits, &entry.function)? {
        cons_fit(alloc, limits, &entry.cons)
    } else {
        Ok(false)
    }
}

/// Whether a value may be given.
pub(crate) fn value_fits(
    alloc: Global,
    limits: &Limits,
    entry: &ValueEntry,
) -> Result<bool, NoMemory>
    ensures { IfOk result (λ fits. IsTrue fits ↔ ValueHas (SchemeFits (nodes_of limits.now)) entry.now) }
{
    scheme_fits(alloc, limits, &entry.scheme)
}
