//! The reader of conditions, by recursive descent.

ghost use Rattle.std.specs.Prelude.{◌≡◌, ◌+◌, ◌∷◌, [], Some, IfOk, MatchResult};
ghost use Rattle.cm_conditions.specs.Grammar.{part, chain, rounds, compared, comparison, factor, atom, atom_after, in_parens, closed, defined, defined_of, module_of, word_then, below, condition, joined, step_of, is_name};
ghost use Rattle.cm_conditions.specs.Seen.{Reads};
ghost use Rattle.cm_conditions.specs.declared.cond.Cond.TheVariants.{Parens as parens_of, Chain as chain_of};

use crate::cond::{Cond, Step};
use crate::cursor::Cursor;
use crate::lexeme::{Lexeme, Mark, Operator, Strength};
use crate::words::{is_defined, space_of};
use cm_base::{Boxed, List, ModName, Namespace, NoMemory, Text};
use std::alloc::Global;

/// Why a reading ends before its condition is whole.
#[derive(Clone, Copy, Debug, PartialEq, Eq)]
pub(crate) enum Stop {
    Refused,
    TooDeep,
    NoMemory,
}

impl From<NoMemory> for Stop {
    ghost use Rattle.std.specs.Prelude.{◌≡◌};
    ghost use Rattle.cm_conditions.specs.declared.reader.Stop.TheVariants.{NoMemory as memory};

    ghost from_gives = { λ _ stop. stop ≡ memory };

    fn from(_error: NoMemory) -> Self {
        Stop::NoMemory
    }
}

/// An operator with its right side.
fn step_of(op: Operator, right: Cond) -> Step
    ensures { result ≡ step_of op right }
{
    match op {
        Operator::Multiply => Step::Multiply(right),
        Operator::Div => Step::Div(right),
        Operator::Mod => Step::Mod(right),
        Operator::Add => Step::Add(right),
        Operator::Subtract => Step::Subtract(right),
        Operator::Equal => Step::Equal(right),
        Operator::Unequal => Step::Unequal(right),
        Operator::Less => Step::Less(right),
        Operator::LessEqual => Step::LessEqual(right),
        Operator::Greater => Step::Greater(right),
        Operator::GreaterEqual => Step::GreaterEqual(right),
        Operator::Andalso => Step::Andalso(right),
        Operator::Orelse => Step::Orelse(right),
    }
}

/// A chain of one operator.
fn chain_of(alloc: Global, first: Cond, step: Step) -> Result<Cond, NoMemory>
    ensures { IfOk result (λ cond. cond ≡ chain_of first (step ∷ [])) }
{
    let mut steps = List::new(alloc);
    steps.add(step)?;
    Ok(Cond::Chain(Boxed::new(alloc, first)?, steps))
}

/// Two sides with an operator between them: one operator more behind a chain, or the first behind another condition.
#[tactic(auto, unfolding(crate::specs::Grammar::joined))]
fn joined(alloc: Global, op: Operator, left: Cond, right: Cond) -> Result<Cond, NoMemory>
    ensures { IfOk result (λ cond. cond ≡ joined op left right) }
{
    let step = step_of(op, right);
    match left {
        Cond::Chain(first, mut steps) => {
            steps.add(step)?;
            Ok(Cond::Chain(first, steps))
        }
        first => chain_of(alloc, first, step),
    }
}

/// One level less, or too deep.
fn deeper(levels: u32) -> Result<u32, Stop>
    ensures { MatchResult result (λ less. levels ≡ less + 1) (λ stop. (stop ≡ Stop.TooDeep) × (levels ≡ 0)) }
{
    levels.checked_sub(1).ok_or(Stop::TooDeep)
}

/// A condition in which so many parentheses may be open at once.
#[cycle(reading)]
pub(crate) fn condition(alloc: Global, cursor: &mut Cursor<'_>, levels: u32) -> Result<Cond, Stop>
    ensures { Reads (condition levels) cursor.old.rest.now result cursor.new.rest.now }
{
    chain(alloc, cursor, levels, Strength::Or)
}

/// Parts with operators of one strength between them.
#[cycle(reading)]
#[tactic(auto, unfolding(crate::specs::Grammar::chain))]
fn chain(
    alloc: Global,
    cursor: &mut Cursor<'_>,
    levels: u32,
    strength: Strength,
) -> Result<Cond, Stop>
    ensures { Reads (chain (part (below levels) strength) strength) cursor.old.rest.now result cursor.new.rest.now }
{
    let first = part(alloc, cursor, levels, strength)?;
    rounds(alloc, cursor, levels, strength, first)
}

/// What follows the parts that were read: operators of one strength, each with a part behind it.
#[cycle(reading)]
#[tactic(auto, using(crate::proofs::ReadingSteps::rounds_steps))]
fn rounds(
    alloc: Global,
    cursor: &mut Cursor<'_>,
    levels: u32,
    strength: Strength,
    first: Cond,
) -> Result<Cond, Stop>
    ensures { Reads (rounds (part (below levels) strength) strength first) cursor.old.rest.now
        result cursor.new.rest.now }
{
    let mut left = first;
    while let Some(operator) = cursor.operator(strength) {
        cursor.take();
        let right = part(alloc, cursor, levels, strength)?;
        left = joined(alloc, operator, left, right)?;
    }
    Ok(left)
}

/// What stands on each side of an operator of this strength.
#[cycle(reading)]
fn part(
    alloc: Global,
    cursor: &mut Cursor<'_>,
    levels: u32,
    strength: Strength,
) -> Result<Cond, Stop>
    ensures { Reads (part (below levels) strength) cursor.old.rest.now result cursor.new.rest.now }
{
    match strength {
        Strength::Or => chain(alloc, cursor, levels, Strength::And),
        Strength::And => comparison(alloc, cursor, levels),
        Strength::Sum => chain(alloc, cursor, levels, Strength::Product),
        Strength::Product => factor(alloc, cursor, levels),
    }
}

/// A sum, or two with a comparison between them.
#[cycle(reading)]
#[tactic(auto, unfolding(crate::specs::Grammar::comparison))]
fn comparison(alloc: Global, cursor: &mut Cursor<'_>, levels: u32) -> Result<Cond, Stop>
    ensures { Reads (part (below levels) Strength.And) cursor.old.rest.now result cursor.new.rest.now }
{
    let left = chain(alloc, cursor, levels, Strength::Sum)?;
    compared(alloc, cursor, levels, left)
}

/// A comparison with another side behind it, or nothing more.
#[cycle(reading)]
#[tactic(auto, using(crate::proofs::ReadingSteps::compared_steps))]
fn compared(alloc: Global, cursor: &mut Cursor<'_>, levels: u32, left: Cond) -> Result<Cond, Stop>
    ensures { Reads (compared (chain (part (below levels) Strength.Sum) Strength.Sum) left) cursor.old.rest.now
        result cursor.new.rest.now }
{
    let Some(operator) = cursor.comparison() else {
        return Ok(left);
    };
    cursor.take();
    let right = chain(alloc, cursor, levels, Strength::Sum)?;
    Ok(joined(alloc, operator, left, right)?)
}

/// An atom, or `not` before one.
#[cycle(reading)]
#[tactic(auto, using(crate::proofs::ReadingSteps::factor_steps))]
fn factor(alloc: Global, cursor: &mut Cursor<'_>, levels: u32) -> Result<Cond, Stop>
    ensures { Reads (factor (below levels)) cursor.old.rest.now result cursor.new.rest.now }
{
    if !cursor.sees_not() {
        return atom(alloc, cursor, levels);
    }
    cursor.take();
    let inner = atom(alloc, cursor, levels)?;
    Ok(Cond::Not(Boxed::new(alloc, inner)?))
}

/// An atom.
#[cycle(reading)]
#[tactic(auto, using(crate::proofs::ReadingSteps::atom_steps))]
fn atom(alloc: Global, cursor: &mut Cursor<'_>, levels: u32) -> Result<Cond, Stop>
    ensures { Reads (atom (below levels)) cursor.old.rest.now result cursor.new.rest.now }
{
    let Some(lexeme) = cursor.peek() else {
        return Err(Stop::Refused);
    };
    if !lexeme.starts_atom() {
        return Err(Stop::Refused);
    }
    cursor.take();
    atom_after(alloc, cursor, levels, lexeme)
}

/// An atom, behind its first lexeme.
#[cycle(reading)]
fn atom_after(
    alloc: Global,
    cursor: &mut Cursor<'_>,
    levels: u32,
    lexeme: &Lexeme,
) -> Result<Cond, Stop>
    ensures { Reads (atom_after (below levels) lexeme.now) cursor.old.rest.now result cursor.new.rest.now }
{
    match lexeme {
        Lexeme::Number(number) => Ok(Cond::Number(*number)),
        Lexeme::Word(word) => {
            if is_defined(word.as_bytes()) {
                return defined(alloc, cursor);
            }
            Ok(Cond::Name(word.copy()?))
        }
        Lexeme::Mark(_) => in_parens(alloc, cursor, levels),
        Lexeme::Wrong => Err(Stop::Refused),
    }
}

/// What stands in parentheses, behind the opening one.
#[cycle(reading)]
#[tactic(auto, using(crate::proofs::ReadingSteps::level_steps), unfolding(crate::specs::Grammar::in_parens))]
fn in_parens(alloc: Global, cursor: &mut Cursor<'_>, levels: u32) -> Result<Cond, Stop>
    ensures { Reads (in_parens (below levels)) cursor.old.rest.now result cursor.new.rest.now }
{
    let inner = condition(alloc, cursor, deeper(levels)?)?;
    closed(cursor, Cond::Parens(Boxed::new(alloc, inner)?))
}

/// A closing parenthesis behind what was read.
#[tactic(auto, using(crate::proofs::ReadingSteps::closed_steps))]
fn closed(cursor: &mut Cursor<'_>, cond: Cond) -> Result<Cond, Stop>
    ensures { Reads (closed cond) cursor.old.rest.now result cursor.new.rest.now }
{
    if !cursor.sees(Mark::Close) {
        return Err(Stop::Refused);
    }
    cursor.take();
    Ok(cond)
}

/// What stands behind `defined`.
#[tactic(auto, using(crate::proofs::ReadingSteps::defined_steps))]
fn defined(alloc: Global, cursor: &mut Cursor<'_>) -> Result<Cond, Stop>
    ensures { Reads defined cursor.old.rest.now result cursor.new.rest.now }
{
    if !cursor.sees(Mark::Open) {
        return Err(Stop::Refused);
    }
    cursor.take();
    name_in_defined(alloc, cursor)
}

/// What stands behind `defined` and its parenthesis.
#[tactic(auto, using(crate::proofs::ReadingSteps::word_steps))]
fn name_in_defined(alloc: Global, cursor: &mut Cursor<'_>) -> Result<Cond, Stop>
    ensures { Reads (word_then is_name defined_of) cursor.old.rest.now result cursor.new.rest.now }
{
    let Some(word) = cursor.name() else {
        return Err(Stop::Refused);
    };
    cursor.take();
    defined_of(alloc, cursor, word)
}

/// What stands behind a name in `defined`.
#[tactic(auto, using(crate::proofs::ReadingSteps::defined_of_steps))]
fn defined_of(alloc: Global, cursor: &mut Cursor<'_>, word: &Text) -> Result<Cond, Stop>
    ensures { Reads (defined_of word.now) cursor.old.rest.now result cursor.new.rest.now }
{
    if !cursor.sees(Mark::Close) {
        return module_of(alloc, cursor, space_of(word.as_bytes()));
    }
    cursor.take();
    Ok(Cond::Defined(word.copy()?))
}

/// What stands behind a name space in `defined`.
#[tactic(auto, using(crate::proofs::ReadingSteps::word_steps), unfolding(crate::specs::Grammar::module_of))]
fn module_of(
    _alloc: Global,
    cursor: &mut Cursor<'_>,
    space: Option<Namespace>,
) -> Result<Cond, Stop>
    ensures { Reads (module_of space) cursor.old.rest.now result cursor.new.rest.now }
{
    let Some(space) = space else {
        return Err(Stop::Refused);
    };
    let Some(word) = cursor.word() else {
        return Err(Stop::Refused);
    };
    let name = word.copy()?;
    cursor.take();
    closed(cursor, Cond::Provided(ModName { space, name }))
}
