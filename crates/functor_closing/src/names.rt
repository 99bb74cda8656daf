//! Lists of type names.

ghost use Rattle.std.specs.Prelude.{◌≡◌, ◌+◌, ◌++◌, IfOk};
ghost use Rattle.module_semantics.specs.SignatureNames.{bound_names};

use cm_base::{List, NoMemory};
use env_parts::copy_names;
use semantic_objects::{Owner, TyName};
use std::alloc::Global;

/// A number so much after another. One past the end of numbers counts as want of memory.
fn number_after(first: u64, count: usize) -> Result<u64, NoMemory>
    ensures { IfOk result (λ number. number ≡ first + count) }
{
    match first.checked_add(count as u64) {
        Some(number) => Ok(number),
        None => Err(NoMemory),
    }
}

/// Bound names for some names, from a number on, one for each in their order, of the same arity and equality.
pub(crate) fn bound_names(
    alloc: Global,
    first: u64,
    olds: &[TyName],
) -> Result<List<TyName>, NoMemory>
    ensures { IfOk result (λ names. names ≡ bound_names first olds.now) }
{
    let mut names = List::new(alloc);
    for old in olds {
        let number = number_after(first, names.len())?;
        names.add(TyName {
            owner: Owner::Bound,
            number,
            arity: old.arity,
            eq: old.eq,
        })?;
    }
    Ok(names)
}

/// Copies of names, those of a list behind those of another.
pub(crate) fn joined(
    alloc: Global,
    front: &List<TyName>,
    back: &List<TyName>,
) -> Result<List<TyName>, NoMemory>
    ensures { IfOk result (λ names. names ≡ front.now ++ back.now) }
{
    let mut names = copy_names(alloc, front)?;
    for name in back.as_slice() {
        names.add(name.copy()?)?;
    }
    Ok(names)
}
