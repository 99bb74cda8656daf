//! Values that are held while something else may fail.
//!
//! Where it fails, they are let go here, in functions of any type. The checker goes through all kinds of trees at each
//! place where a tree may be let go, so the functions that make trees have few such places of their own.

ghost use Rattle.std.specs.Prelude.{◌≡◌, ◌∷◌, ◌++◌, [], IfOk, IfErr, MatchResult, length};

use cm_base::{Boxed, List, NoMemory};
use std::alloc::Global;

/// A list of one item.
pub fn one<T: Drop>(alloc: Global, only: T) -> Result<List<T>, NoMemory>
    ensures { IfOk result (λ made. made ≡ only ∷ []) }
{
    let mut made = List::new(alloc);
    made.add(only)?;
    Ok(made)
}

/// A list of two items.
pub fn two<T: Drop>(alloc: Global, first: T, second: T) -> Result<List<T>, NoMemory>
    ensures { IfOk result (λ made. made ≡ first ∷ second ∷ []) }
{
    with(one(alloc, first)?, second)
}

/// A list with one item more.
pub fn with<T: Drop>(items: List<T>, last: T) -> Result<List<T>, NoMemory>
    ensures { IfOk result (λ made. made ≡ items ++ last ∷ []) }
{
    let mut made = items;
    made.add(last)?;
    Ok(made)
}

/// A vector with one item more.
pub fn pushed<T: Drop>(items: Vec<T>, last: T) -> Result<Vec<T>, NoMemory>
    ensures { IfOk result (λ made. made.items ≡ items.items ++ last ∷ []) }
{
    let mut made = items;
    made.push(last)?;
    Ok(made)
}

/// A vector with the items of a list behind its own.
pub fn appended<T: Drop>(items: Vec<T>, more: List<T>) -> Result<Vec<T>, NoMemory>
    ensures { IfOk result (λ made. made.items ≡ items.items ++ more) }
{
    let mut made = items;
    let mut more = more.into_vec();
    made.append(&mut more)?;
    Ok(made)
}

/// The item of a vector that has one, or the vector.
pub fn only<T: Drop>(items: Vec<T>) -> Result<T, Vec<T>>
    ensures items { MatchResult result (λ only. items.items ≡ only ∷ []) (λ all. all.items ≡ items.items) }
    ensures others { IfErr result (λ _. length items.items ≡ 1 → ⊥) }
{
    let mut items = items;
    if items.len() != 1 {
        return Err(items);
    }
    match items.pop() {
        Some(only) => Ok(only),
        None => Err(items),
    }
}

/// A tree in a box, beside what is held.
pub fn boxed_beside<A: Drop, B: Drop>(
    alloc: Global,
    first: A,
    held: B,
) -> Result<(Boxed<A>, B), NoMemory>
    ensures first { IfOk result (λ made. made.0 ≡ first) }
    ensures held { IfOk result (λ made. made.1 ≡ held) }
{
    Ok((Boxed::new(alloc, first)?, held))
}

/// Two trees in boxes.
pub fn boxed_two<A: Drop, B: Drop>(
    alloc: Global,
    first: A,
    second: B,
) -> Result<(Boxed<A>, Boxed<B>), NoMemory>
    ensures first { IfOk result (λ made. made.0 ≡ first) }
    ensures second { IfOk result (λ made. made.1 ≡ second) }
{
    let (first, second) = boxed_beside(alloc, first, second)?;
    Ok((first, Boxed::new(alloc, second)?))
}
