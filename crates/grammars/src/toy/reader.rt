//! The reader of the toy grammar, by recursive descent.

ghost use Rattle.std.specs.Prelude.{◌≡◌, ◌+◌, ◌-◌, ◌≤◌, IfOk, MatchResult, length};
ghost use Rattle.grammars.specs.Sums.{level, below, part, joined, beside, atom_after};
ghost use Rattle.grammars.specs.Answers.{Answers};
ghost use Rattle.grammars.specs.Seen.{seen, Reads};

use super::cursor::Cursor;
use super::fault::Fault;
use super::made::Made;
use super::refusal::Refusal;
use super::token::{Strength, Token};
use super::tree::{Operator, Tree};
use std::alloc::Global;

/// Reads a whole text as one sum that nests at most so many levels.
#[tactic(auto, using(crate::proofs::Rounds::not_longer))]
pub fn read_sum(alloc: Global, tokens: &[Token], limit: u32) -> Result<Tree, Refusal>
    ensures { Answers limit tokens.now result }
{
    let mut cursor = Cursor { rest: tokens };
    match sum(alloc, &mut cursor, limit) {
        Ok(made) if cursor.rest.is_empty() => Ok(made.tree),
        Ok(_) => Err(Refusal::NoPhrase(place(tokens, cursor.rest))),
        Err(Fault::Refused) => Err(Refusal::NoPhrase(place(tokens, cursor.rest))),
        Err(Fault::TooDeep) => Err(Refusal::TooDeep(place(tokens, cursor.rest))),
        Err(Fault::NoMemory) => Err(Refusal::NoMemory),
    }
}

/// How many tokens stand before the rest.
fn place(tokens: &[Token], rest: &[Token]) -> usize
    requires { length rest.now ≤ length tokens.now }
    ensures { result ≡ length tokens.now - length rest.now }
{
    tokens.len() - rest.len()
}

/// One level less, or too deep.
fn deeper(levels: u32) -> Result<u32, Fault>
    ensures { MatchResult result (λ less. levels ≡ less + 1) (λ fault. (fault ≡ Fault.TooDeep) × (levels ≡ 0)) }
{
    levels.checked_sub(1).ok_or(Fault::TooDeep)
}

/// A sum.
#[cycle(reading)]
fn sum(alloc: Global, cursor: &mut Cursor<'_>, levels: u32) -> Result<Made, Fault>
    ensures reads { Reads (level levels).sum cursor.old.rest.now result cursor.new.rest.now }
    ensures low { IfOk result (λ made. made.height ≤ levels) }
{
    let first = product(alloc, cursor, levels)?;
    joined(alloc, cursor, levels, Strength::Sum, first)
}

/// A product.
#[cycle(reading)]
fn product(alloc: Global, cursor: &mut Cursor<'_>, levels: u32) -> Result<Made, Fault>
    ensures reads { Reads (level levels).product cursor.old.rest.now result cursor.new.rest.now }
    ensures low { IfOk result (λ made. made.height ≤ levels) }
{
    let first = atom(alloc, cursor, levels)?;
    joined(alloc, cursor, levels, Strength::Product, first)
}

/// Parts joined by operators of one strength, after the first of them.
#[cycle(reading)]
#[tactic(auto, using(crate::proofs::SumSteps::joined_steps))]
fn joined(
    alloc: Global,
    cursor: &mut Cursor<'_>,
    levels: u32,
    strength: Strength,
    first: Made,
) -> Result<Made, Fault>
    requires { first.height ≤ levels }
    ensures reads { Reads (joined levels (below levels) strength (seen first)) cursor.old.rest.now
        result cursor.new.rest.now }
    ensures low { IfOk result (λ made. made.height ≤ levels) }
{
    let mut left = first;
    while let Some(operator) = cursor.operator(strength) {
        cursor.take();
        left = beside(alloc, cursor, levels, strength, operator, left)?;
    }
    Ok(left)
}

/// An operator, after it, with what stands on both its sides.
#[cycle(reading)]
#[tactic(auto, using(crate::proofs::SumSteps::beside_steps))]
fn beside(
    alloc: Global,
    cursor: &mut Cursor<'_>,
    levels: u32,
    strength: Strength,
    operator: Operator,
    left: Made,
) -> Result<Made, Fault>
    requires { left.height ≤ levels }
    ensures reads { Reads (beside levels (below levels) strength operator (seen left))
        cursor.old.rest.now result cursor.new.rest.now }
    ensures low { IfOk result (λ made. made.height ≤ levels) }
{
    if left.height == levels {
        return Err(Fault::TooDeep);
    }
    let right = part(alloc, cursor, levels - 1, strength)?;
    left.joined(alloc, operator, right)
}

/// What stands on each side of an operator of this strength.
#[cycle(reading)]
fn part(
    alloc: Global,
    cursor: &mut Cursor<'_>,
    levels: u32,
    strength: Strength,
) -> Result<Made, Fault>
    ensures reads { Reads (part (level levels) strength) cursor.old.rest.now result cursor.new.rest.now }
    ensures low { IfOk result (λ made. made.height ≤ levels) }
{
    match strength {
        Strength::Sum => product(alloc, cursor, levels),
        Strength::Product => atom(alloc, cursor, levels),
    }
}

/// A number, a name, or what begins with a minus or a bracket.
#[cycle(reading)]
#[tactic(auto, using(crate::proofs::SumSteps::atom_steps))]
fn atom(alloc: Global, cursor: &mut Cursor<'_>, levels: u32) -> Result<Made, Fault>
    ensures reads { Reads (level levels).atom cursor.old.rest.now result cursor.new.rest.now }
    ensures low { IfOk result (λ made. made.height ≤ levels) }
{
    match cursor.peek() {
        Some(Token::Number(number)) => {
            cursor.take();
            Ok(Made::number(number))
        }
        Some(Token::Name(name)) => {
            cursor.take();
            Ok(Made::name(name))
        }
        Some(Token::Minus) => {
            cursor.take();
            negated(alloc, cursor, levels)
        }
        Some(Token::Open) => {
            cursor.take();
            grouped(alloc, cursor, levels)
        }
        _ => Err(Fault::Refused),
    }
}

/// What stands behind a minus.
#[cycle(reading)]
#[tactic(auto, using(crate::proofs::SumSteps::level_steps))]
fn negated(alloc: Global, cursor: &mut Cursor<'_>, levels: u32) -> Result<Made, Fault>
    ensures reads { Reads (atom_after (below levels) Token.Minus) cursor.old.rest.now result cursor.new.rest.now }
    ensures low { IfOk result (λ made. made.height ≤ levels) }
{
    let inner = atom(alloc, cursor, deeper(levels)?)?;
    inner.negated(alloc)
}

/// What stands in brackets, after the opening one.
#[cycle(reading)]
#[tactic(auto, using(crate::proofs::SumSteps::level_steps))]
fn grouped(alloc: Global, cursor: &mut Cursor<'_>, levels: u32) -> Result<Made, Fault>
    ensures reads { Reads (atom_after (below levels) Token.Open) cursor.old.rest.now result cursor.new.rest.now }
    ensures low { IfOk result (λ made. made.height ≤ levels) }
{
    let inner = sum(alloc, cursor, deeper(levels)?)?;
    let Some(Token::Close) = cursor.peek() else {
        return Err(Fault::Refused);
    };
    cursor.take();
    inner.grouped(alloc)
}
