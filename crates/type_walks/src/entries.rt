//! Type structures and values with type functions in place of type names.

ghost use Rattle.std.specs.Prelude.{◌≡◌, IfOk, false, map};
ghost use Rattle.realisation.specs.Environments.{changed_con, changed_type, changed_value};
ghost use Rattle.realisation.specs.Realised.{realised_scheme, realised_function};
ghost use Rattle.type_walks.specs.Replaced.{put_by, replacing, Becomes};

use crate::replacing::Replacements;
use crate::trees::{is_replaced_in, replaced_tree};
use cm_base::{List, NoMemory};
use semantic_objects::{ConEntry, Scheme, TypeFn, TypeStr, ValueEntry};
use std::alloc::Global;

/// A scheme that is realised. Its variables stay.
fn replaced_scheme(alloc: Global, by: &Replacements, scheme: &Scheme) -> Result<Scheme, NoMemory>
    ensures { IfOk result (λ made. made ≡ realised_scheme (put_by by.now) scheme.now) }
{
    let parts = scheme.parts(alloc)?;
    let body = replaced_tree(alloc, by, &parts.body)?;
    Scheme::make(parts.marks, body)
}

/// A type function that is realised.
fn replaced_function(
    alloc: Global,
    by: &Replacements,
    function: &TypeFn,
) -> Result<TypeFn, NoMemory>
    ensures { IfOk result (λ made. made ≡ realised_function (put_by by.now) function.now) }
{
    Ok(TypeFn {
        arity: function.arity,
        body: replaced_tree(alloc, by, &function.body)?,
    })
}

/// Constructors that are realised.
fn replaced_cons(
    alloc: Global,
    by: &Replacements,
    cons: &List<ConEntry>,
) -> Result<List<ConEntry>, NoMemory>
    ensures { IfOk result (λ made. made ≡ map (changed_con (replacing by.now)) cons.now) }
{
    let mut made = List::new(alloc);
    for con in cons.as_slice() {
        made.add(ConEntry {
            name: con.name.copy()?,
            scheme: replaced_scheme(alloc, by, &con.scheme)?,
        })?;
    }
    Ok(made)
}

/// Whether a type function is put for a name that stands in a constructor.
fn is_any_con_replaced(by: &Replacements, cons: &List<ConEntry>) -> Result<bool, NoMemory>
    ensures { IfOk result (λ is. is ≡ false → map (changed_con (replacing by.now)) cons.now ≡ cons.now) }
{
    for con in cons.as_slice() {
        if is_replaced_in(by, con.scheme.body())? {
            return Ok(true);
        }
    }
    Ok(false)
}

/// A type structure that is realised, and none where no name that is replaced stands in it.
pub fn replaced_type(
    alloc: Global,
    by: &Replacements,
    entry: &TypeStr,
) -> Result<Option<TypeStr>, NoMemory>
    ensures { IfOk result (Becomes entry.now (changed_type (replacing by.now) entry.now)) }
{
    if is_replaced_in(by, &entry.function.body)? || is_any_con_replaced(by, &entry.cons)? {
        let function = replaced_function(alloc, by, &entry.function)?;
        let cons = replaced_cons(alloc, by, &entry.cons)?;
        Ok(Some(TypeStr { function, cons }))
    } else {
        Ok(None)
    }
}

/// A value that is realised, and none where no name that is replaced stands in it.
pub fn replaced_value(
    alloc: Global,
    by: &Replacements,
    entry: &ValueEntry,
) -> Result<Option<ValueEntry>, NoMemory>
    ensures { IfOk result (Becomes entry.now (changed_value (replacing by.now) entry.now)) }
{
    if is_replaced_in(by, entry.scheme.body())? {
        let scheme = replaced_scheme(alloc, by, &entry.scheme)?;
        Ok(Some(ValueEntry {
            status: entry.status,
            scheme,
        }))
    } else {
        Ok(None)
    }
}
