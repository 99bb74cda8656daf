//! Copies of entries and of lists of type names.

ghost use Rattle.std.specs.Prelude.{◌≡◌, IfOk};

use cm_base::{List, NoMemory};
use semantic_objects::{ConEntry, Scheme, TyName, TypeFn, TypeStr, ValueEntry};
use std::alloc::Global;

/// The same scheme.
fn copy_scheme(alloc: Global, scheme: &Scheme) -> Result<Scheme, NoMemory>
    ensures { IfOk result (λ copy. copy ≡ scheme.now) }
{
    let parts = scheme.parts(alloc)?;
    Scheme::make(parts.marks, parts.body)
}

/// The same constructors.
fn copy_cons(alloc: Global, cons: &List<ConEntry>) -> Result<List<ConEntry>, NoMemory>
    ensures { IfOk result (λ copy. copy ≡ cons.now) }
{
    let mut copy = List::new(alloc);
    for con in cons.as_slice() {
        copy.add(ConEntry {
            name: con.name.copy()?,
            scheme: copy_scheme(alloc, &con.scheme)?,
        })?;
    }
    Ok(copy)
}

/// The same type structure.
pub fn copy_type(alloc: Global, entry: &TypeStr) -> Result<TypeStr, NoMemory>
    ensures { IfOk result (λ copy. copy ≡ entry.now) }
{
    let function = TypeFn {
        arity: entry.function.arity,
        body: entry.function.body.copy(alloc)?,
    };
    let cons = copy_cons(alloc, &entry.cons)?;
    Ok(TypeStr { function, cons })
}

/// The same value.
pub fn copy_value(alloc: Global, entry: &ValueEntry) -> Result<ValueEntry, NoMemory>
    ensures { IfOk result (λ copy. copy ≡ entry.now) }
{
    Ok(ValueEntry {
        status: entry.status,
        scheme: copy_scheme(alloc, &entry.scheme)?,
    })
}

/// The same type names.
pub fn copy_names(alloc: Global, names: &List<TyName>) -> Result<List<TyName>, NoMemory>
    ensures { IfOk result (λ copy. copy ≡ names.now) }
{
    let mut copy = List::new(alloc);
    for name in names.as_slice() {
        copy.add(name.copy()?)?;
    }
    Ok(copy)
}
