//! Constructors and types against what is specified of them.

ghost use Rattle.std.specs.Prelude.{◌≡◌, IfOk, false};
ghost use Rattle.env_parts.specs.Types.{holds_free, facts_of, con_types, type_types};
ghost use Rattle.semantic_objects.specs.Symbols.{same_list};
ghost use Rattle.module_semantics.specs.Matching.{same_scheme, same_con, has_cons, fits_type};

use crate::canonical::canonical;
use crate::comparing::are_one;
use cm_base::{List, NoMemory};
use semantic_objects::{ConEntry, Scheme, TypeStr};
use sml_types::TypeTable;
use std::alloc::Global;

/// Whether two schemes, in which no variable of the table stands, have the same marks and the same type.
fn are_same(
    t: &mut TypeTable,
    alloc: Global,
    left: &Scheme,
    right: &Scheme,
) -> Result<bool, NoMemory>
    requires left { holds_free left.now.body ≡ false }
    requires right { holds_free right.now.body ≡ false }
    ensures same { IfOk result (λ same. same ≡ same_scheme left.now right.now) }
    ensures table { t.new ≡ t.old }
{
    if left.marks() != right.marks() {
        return Ok(false);
    }
    are_one(t, alloc, left.body(), right.body())
}

/// Whether two constructors, in whose types no variable of the table stands, have one name and schemes of one form.
fn is_same_con(
    t: &mut TypeTable,
    alloc: Global,
    left: &ConEntry,
    right: &ConEntry,
) -> Result<bool, NoMemory>
    requires left { holds_free left.now.scheme.body ≡ false }
    requires right { holds_free right.now.scheme.body ≡ false }
    ensures same { IfOk result (λ same. same ≡ same_con left.now right.now) }
    ensures table { t.new ≡ t.old }
{
    if left.name.as_bytes() != right.name.as_bytes() {
        return Ok(false);
    }
    let this = canonical(t, alloc, &left.scheme)?;
    let that = canonical(t, alloc, &right.scheme)?;
    are_same(t, alloc, &this, &that)
}

/// Whether constructors are the same, one by one.
fn are_same_cons(
    t: &mut TypeTable,
    alloc: Global,
    left: &[ConEntry],
    right: &[ConEntry],
) -> Result<bool, NoMemory>
    requires left { (facts_of (con_types left.now)).has_free ≡ false }
    requires right { (facts_of (con_types right.now)).has_free ≡ false }
    ensures same { IfOk result (λ same. same ≡ same_list same_con left.now right.now) }
    ensures table { t.new ≡ t.old }
{
    if left.len() != right.len() {
        return Ok(false);
    }
    for at in 0..left.len() {
        let this = &left[at];
        let that = &right[at];
        if !is_same_con(t, alloc, this, that)? {
            return Ok(false);
        }
    }
    Ok(true)
}

/// Whether a type has the constructors that are specified: where none are, it may have any.
fn has_cons(
    t: &mut TypeTable,
    alloc: Global,
    specified: &[ConEntry],
    found: &[ConEntry],
) -> Result<bool, NoMemory>
    requires specified { (facts_of (con_types specified.now)).has_free ≡ false }
    requires found { (facts_of (con_types found.now)).has_free ≡ false }
    ensures has { IfOk result (λ has. has ≡ has_cons specified.now found.now) }
    ensures table { t.new ≡ t.old }
{
    if specified.is_empty() {
        return Ok(true);
    }
    are_same_cons(t, alloc, specified, found)
}

/// Whether a type structure has the type function that is specified, of the same arity, and the constructors. No variable
/// of the table stands in either. The Definition of Standard ML (Revised), section 5.5.
pub(crate) fn fits_type(
    t: &mut TypeTable,
    alloc: Global,
    specified: &TypeStr,
    found: &TypeStr,
) -> Result<bool, NoMemory>
    requires arity { found.now.function.arity ≡ specified.now.function.arity }
    requires specified { (facts_of (type_types specified.now)).has_free ≡ false }
    requires found { (facts_of (type_types found.now)).has_free ≡ false }
    ensures fits { IfOk result (λ fits. fits ≡ fits_type specified.now found.now) }
    ensures table { t.new ≡ t.old }
{
    if !are_one(t, alloc, &specified.function.body, &found.function.body)? {
        return Ok(false);
    }
    has_cons(t, alloc, specified.cons.as_slice(), found.cons.as_slice())
}
