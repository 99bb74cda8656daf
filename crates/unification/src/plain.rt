//! Types as one writes them down, variables, and what was put in for them.

ghost use Rattle.std.specs.Prelude.{◌≡◌, IfOk, map};
ghost use Rattle.unification.specs.Types.{put, put_all, occurs, occurs_any};
ghost use Rattle.unification.specs.Unification.{single};
ghost use Rattle.unification.specs.Plain.{type_of, types_of};

use cm_base::{List, NoMemory};
use semantic_objects::Symbol;
use std::alloc::Global;

/// A type: a variable by its number, or a symbol over types. It is walked by recursion, so it is meant for types of at
/// most some thousand levels, as one writes them.
#[cycle(plain)]
#[derive(Drop)]
pub enum PlainType {
    Variable(usize),
    Made(Symbol, List<PlainType>),
}

/// What a variable is: whether it is an equality variable, and whether it is rigid, so that it stands for itself alone.
#[derive(Clone, Copy, Debug, PartialEq, Eq)]
pub struct VariableKind {
    pub eq: bool,
    pub rigid: bool,
}

/// A type that was put in for a variable.
#[derive(Drop)]
pub struct Binding {
    pub variable: usize,
    pub to: PlainType,
}

/// Another type, equal to this one.
#[cycle(copied)]
pub(crate) fn copy_type(alloc: Global, ty: &PlainType) -> Result<PlainType, NoMemory>
    ensures { IfOk result (λ copy. copy ≡ ty.now) }
{
    match ty {
        PlainType::Variable(n) => Ok(PlainType::Variable(*n)),
        PlainType::Made(symbol, parts) => Ok(PlainType::Made(
            symbol.copy()?,
            copy_all(alloc, parts.as_slice())?,
        )),
    }
}

#[cycle(copied)]
fn copy_all(alloc: Global, types: &[PlainType]) -> Result<List<PlainType>, NoMemory>
    ensures { IfOk result (λ copy. copy ≡ types.now) }
{
    let mut copy = List::new(alloc);
    for ty in types {
        copy.add(copy_type(alloc, ty)?)?;
    }
    Ok(copy)
}

/// A type with another one in place of a variable.
#[cycle(substitute)]
pub(crate) fn substitute(alloc: Global, ty: &PlainType, by: &Binding) -> Result<PlainType, NoMemory>
    ensures { IfOk result (λ new. type_of new ≡ put (single by.now.variable (type_of by.now.to)) (type_of ty.now)) }
{
    match ty {
        PlainType::Variable(n) => {
            if by.variable == *n {
                copy_type(alloc, &by.to)
            } else {
                Ok(PlainType::Variable(*n))
            }
        }
        PlainType::Made(symbol, parts) => {
            Ok(PlainType::Made(symbol.copy()?, substitute_all(alloc, parts.as_slice(), by)?))
        }
    }
}

#[cycle(substitute)]
fn substitute_all(
    alloc: Global,
    types: &[PlainType],
    by: &Binding,
) -> Result<List<PlainType>, NoMemory>
    ensures { IfOk result (λ new. types_of (map type_of new)
        ≡ put_all (single by.now.variable (type_of by.now.to)) (types_of (map type_of types.now))) }
{
    let mut new = List::new(alloc);
    for ty in types {
        new.add(substitute(alloc, ty, by)?)?;
    }
    Ok(new)
}

/// Whether a variable stands in a type.
#[cycle(stands_in)]
pub(crate) fn stands_in(variable: usize, ty: &PlainType) -> bool
    ensures { result ≡ occurs variable (type_of ty.now) }
{
    match ty {
        PlainType::Variable(n) => variable == *n,
        PlainType::Made(_, parts) => stands_in_any(variable, parts.as_slice()),
    }
}

#[cycle(stands_in)]
fn stands_in_any(variable: usize, types: &[PlainType]) -> bool
    ensures { result ≡ occurs_any variable (types_of (map type_of types.now)) }
{
    for ty in types {
        if stands_in(variable, ty) {
            return true;
        }
    }
    false
}
