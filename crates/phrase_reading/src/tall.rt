//! Trees with their height.

ghost use Rattle.std.specs.Prelude.{◌≡◌, ◌+◌, ◌<◌, ◌≤◌, IfOk, MatchResult};
ghost use Rattle.phrase_reading.specs.Sized.{one, more};

use crate::stop::Stop;
use cm_base::{Boxed, List, NoMemory};
use std::alloc::Global;

/// A tree, and how many levels it nests.
#[derive(Debug, Drop)]
pub struct Tall<T> {
    pub tree: T,
    pub height: u32,
}

/// One part of several.
pub fn one<T: Drop>(alloc: Global, first: Tall<T>) -> Result<Tall<List<T>>, NoMemory>
    ensures { IfOk result (λ found. found ≡ one first) }
{
    let mut tree = List::new(alloc);
    tree.add(first.tree)?;
    Ok(Tall {
        tree,
        height: first.height,
    })
}

/// The parts and one more.
pub fn more<T: Drop>(found: Tall<List<T>>, next: Tall<T>) -> Result<Tall<List<T>>, NoMemory>
    ensures { IfOk result (λ all. all ≡ more found next) }
{
    let Tall { mut tree, height } = found;
    tree.add(next.tree)?;
    Ok(Tall {
        tree,
        height: height.max(next.height),
    })
}

/// A tree in a box.
pub fn boxed<T: Drop>(alloc: Global, part: Tall<T>) -> Result<Tall<Boxed<T>>, NoMemory>
    ensures { IfOk result (λ made. made ≡ part) }
{
    Ok(Tall {
        tree: Boxed::new(alloc, part.tree)?,
        height: part.height,
    })
}

/// A tree in a box, beside another.
pub fn boxed_first<A: Drop, B: Drop>(
    alloc: Global,
    first: Tall<A>,
    second: Tall<B>,
) -> Result<(Tall<Boxed<A>>, Tall<B>), NoMemory>
    ensures first { IfOk result (λ made. made.0 ≡ first) }
    ensures second { IfOk result (λ made. made.1 ≡ second) }
{
    Ok((boxed(alloc, first)?, second))
}

/// Two trees in boxes.
pub fn boxed_two<A: Drop, B: Drop>(
    alloc: Global,
    first: Tall<A>,
    second: Tall<B>,
) -> Result<(Tall<Boxed<A>>, Tall<Boxed<B>>), NoMemory>
    ensures first { IfOk result (λ made. made.0 ≡ first) }
    ensures second { IfOk result (λ made. made.1 ≡ second) }
{
    let first = boxed(alloc, first)?;
    Ok((first, boxed(alloc, second)?))
}

/// Three trees in boxes.
pub fn boxed_three<A: Drop>(
    alloc: Global,
    first: Tall<A>,
    second: Tall<A>,
    third: Tall<A>,
) -> Result<(Tall<Boxed<A>>, Tall<Boxed<A>>, Tall<Boxed<A>>), NoMemory>
    ensures first { IfOk result (λ made. made.0 ≡ first) }
    ensures second { IfOk result (λ made. made.1 ≡ second) }
    ensures third { IfOk result (λ made. made.2 ≡ third) }
{
    let (first, second) = boxed_two(alloc, first, second)?;
    Ok((first, second, boxed(alloc, third)?))
}

/// A tree of one level more than its parts.
pub fn one_above<T: Drop>(tree: T, height: u32) -> Result<Tall<T>, NoMemory>
    ensures { IfOk result (λ made. made ≡ record { tree = tree; height = height + 1 }) }
{
    match height.checked_add(1) {
        Some(height) => Ok(Tall { tree, height }),
        None => Err(NoMemory),
    }
}

/// A tree that leaves a level for what it is to be a part of.
pub fn lower<T: Drop>(left: Tall<T>, levels: u32) -> Result<Tall<T>, Stop>
    ensures kept { MatchResult result (λ kept. kept ≡ left) (λ stop. stop ≡ Stop.TooDeep) }
    ensures room { MatchResult result (λ _. left.height < levels) (λ _. levels ≤ left.height) }
{
    if left.height < levels {
        Ok(left)
    } else {
        Err(Stop::TooDeep)
    }
}

/// Two parts of several.
pub fn two<T: Drop>(
    alloc: Global,
    first: Tall<T>,
    second: Tall<T>,
) -> Result<Tall<List<T>>, NoMemory>
    ensures { IfOk result (λ found. found ≡ more (one first) second) }
{
    let found = one(alloc, first)?;
    more(found, second)
}
