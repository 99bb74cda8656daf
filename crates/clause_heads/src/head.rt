//! The heads of the clauses of functions, behind their first lexeme.

ghost use Rattle.std.specs.Prelude.{◌≡◌, ◌+◌, IfOk, MatchResult, length, None};
ghost use Rattle.grammars.specs.Grammar.{End, begins, head_or};
ghost use Rattle.grammars.specs.Reading.{Out, read};
ghost use Rattle.phrase_reading.specs.Names.{beginning};
ghost use Rattle.core_patterns.specs.Patterns.{starts_atpat};
ghost use Rattle.phrase_reading.specs.Reads.{Reads, Stops};
ghost use Rattle.clause_heads.specs.Heads.{atom, argument, infix_head, infix_from, atom_head, takes_more, arguments_from, arguments, prefix_name, prefix_head, long_head, short_head, named_head, op_head, head_word, head_after};

use crate::heads::{Wanted, bare, long_behind_op, sees_bare};
use crate::paren_head::parens_head;
use cm_base::{List, NoMemory, Text};
use core_patterns::operand::plain;
use core_patterns::pat_starts::starts_atpat;
use core_patterns::patterns::operand_after;
use infix_names::fixity::Fixities;
use phrase_reading::lexeme;
use phrase_reading::lexemes::Lexemes;
use phrase_reading::stop::Stop;
use phrase_reading::tall::{Tall, more};
use sml_lexer::{Lexeme, LexemeKind, Word};
use sml_trees::held::both;
use sml_trees::{At, FullHead, FullPat, LongName, Name, OpLong, OpName};
use std::alloc::Global;

/// Takes the lexeme that an atomic pattern begins with.
#[tactic(auto, using(phrase_reading::proofs::NameSteps::first_steps))]
pub fn first_of_atpat<'a>(
    lexemes: &mut Lexemes<'a>,
    fixities: &Fixities,
) -> Result<&'a Lexeme, Stop>
    ensures { MatchResult result
        (λ x. read (beginning (starts_atpat fixities.now)) lexemes.old.rest.now
        ≡ Out.out (End.whole x.now) lexemes.new.rest.now)
        (λ why. Stops why (read (beginning (starts_atpat fixities.now)) lexemes.old.rest.now) lexemes.new.rest.now) }
{
    let Some(first) = lexemes.peek() else {
        return Err(Stop::Refused);
    };
    if !starts_atpat(fixities, first) {
        return Err(Stop::Refused);
    }
    lexemes.take();
    Ok(first)
}

/// An atomic pattern behind its first lexeme.
#[tactic(auto, unfolding(crate::specs::Heads::atom))]
fn atom(
    alloc: Global,
    lexemes: &mut Lexemes<'_>,
    fixities: &Fixities,
    levels: u32,
    first: &Lexeme,
) -> Result<Tall<FullPat>, Stop>
    ensures { Reads (atom levels fixities.now first.now) lexemes.old.rest.now result lexemes.new.rest.now }
{
    let operand = operand_after(alloc, lexemes, fixities, first, levels)?;
    Ok(plain(lexeme::at(first), operand))
}

/// An atomic pattern.
#[tactic(auto, unfolding(crate::specs::Heads::argument))]
fn argument(
    alloc: Global,
    lexemes: &mut Lexemes<'_>,
    fixities: &Fixities,
    levels: u32,
) -> Result<Tall<FullPat>, Stop>
    ensures { Reads (argument levels fixities.now) lexemes.old.rest.now result lexemes.new.rest.now }
{
    let first = first_of_atpat(lexemes, fixities)?;
    atom(alloc, lexemes, fixities, levels, first)
}

/// `atpat vid atpat`, behind the vid.
#[tactic(auto, unfolding(crate::specs::Heads::infix_head))]
pub fn infix_head(
    alloc: Global,
    lexemes: &mut Lexemes<'_>,
    fixities: &Fixities,
    levels: u32,
    left: Tall<FullPat>,
    called: Name,
) -> Result<Tall<FullHead>, Stop>
    ensures { Reads (infix_head levels fixities.now left called) lexemes.old.rest.now
        result lexemes.new.rest.now }
{
    let right = argument(alloc, lexemes, fixities, levels);
    let (left, right) = both(left, right)?;
    Ok(Tall {
        height: left.height.max(right.height),
        tree: FullHead::Infix(left.tree, called, right.tree),
    })
}

/// `atpat vid atpat`, behind the first pattern.
#[tactic(auto, unfolding(crate::specs::Heads::infix_from))]
pub fn infix_from(
    alloc: Global,
    lexemes: &mut Lexemes<'_>,
    fixities: &Fixities,
    levels: u32,
    wanted: &Wanted,
    left: Tall<FullPat>,
) -> Result<Tall<FullHead>, Stop>
    ensures { Reads (infix_from levels fixities.now wanted.now left) lexemes.old.rest.now
        result lexemes.new.rest.now }
{
    let called = bare(lexemes, fixities, wanted);
    let (left, called) = both(left, called)?;
    infix_head(alloc, lexemes, fixities, levels, left, called)
}

/// What begins with an atomic pattern that is no name and has no parenthesis.
#[tactic(auto, unfolding(crate::specs::Heads::atom_head))]
fn atom_head(
    alloc: Global,
    lexemes: &mut Lexemes<'_>,
    fixities: &Fixities,
    levels: u32,
    wanted: &Wanted,
    first: &Lexeme,
) -> Result<Tall<FullHead>, Stop>
    ensures { Reads (atom_head levels fixities.now wanted.now first.now) lexemes.old.rest.now
        result lexemes.new.rest.now }
{
    let left = atom(alloc, lexemes, fixities, levels, first)?;
    infix_from(alloc, lexemes, fixities, levels, wanted, left)
}

/// Whether one more argument stands next, behind so many and these.
fn sees_argument(
    lexemes: &Lexemes<'_>,
    fixities: &Fixities,
    wanted: &Wanted,
    before: usize,
    found: &List<FullPat>,
) -> Result<bool, NoMemory>
    ensures { IfOk result (λ sees. sees ≡ begins (takes_more fixities.now wanted.now (before + length found.now))
        (head_or lexemes.now.rest.now None)) }
{
    let args = count(before, found)?;
    match lexemes.peek() {
        Some(next) => Ok(wanted.may_go_on(args) && starts_atpat(fixities, next)),
        None => Ok(false),
    }
}

/// Further arguments, behind so many others.
#[tactic(auto, using(crate::proofs::HeadSteps::arguments_steps))]
fn arguments_from(
    alloc: Global,
    lexemes: &mut Lexemes<'_>,
    fixities: &Fixities,
    levels: u32,
    wanted: &Wanted,
    before: usize,
    found: Tall<List<FullPat>>,
) -> Result<Tall<List<FullPat>>, Stop>
    ensures { Reads (arguments_from levels fixities.now wanted.now before found) lexemes.old.rest.now
        result lexemes.new.rest.now }
{
    let mut found = found;
    while sees_argument(lexemes, fixities, wanted, before, &found.tree)? {
        let next = argument(alloc, lexemes, fixities, levels)?;
        found = more(found, next)?;
    }
    Ok(found)
}

/// So many arguments and these.
fn count(before: usize, found: &List<FullPat>) -> Result<usize, NoMemory>
    ensures { IfOk result (λ count. count ≡ before + length found.now) }
{
    before.checked_add(found.len()).ok_or(NoMemory)
}

/// The arguments behind so many others, which are enough.
#[tactic(auto, unfolding(crate::specs::Heads::arguments))]
pub fn arguments(
    alloc: Global,
    lexemes: &mut Lexemes<'_>,
    fixities: &Fixities,
    levels: u32,
    wanted: &Wanted,
    before: usize,
) -> Result<Tall<List<FullPat>>, Stop>
    ensures { Reads (arguments levels fixities.now wanted.now before) lexemes.old.rest.now
        result lexemes.new.rest.now }
{
    let none = Tall {
        tree: List::new(alloc),
        height: 0,
    };
    let found = arguments_from(alloc, lexemes, fixities, levels, wanted, before, none)?;
    if wanted.may_end(count(before, &found.tree)?) {
        return Ok(found);
    }
    Err(Stop::Refused)
}

/// `[ op ] vid atpat ..`, behind the vid.
#[tactic(auto, unfolding(crate::specs::Heads::prefix_head))]
fn prefix_head(
    alloc: Global,
    lexemes: &mut Lexemes<'_>,
    fixities: &Fixities,
    levels: u32,
    wanted: &Wanted,
    called: OpName,
) -> Result<Tall<FullHead>, Stop>
    ensures { Reads (prefix_head levels fixities.now wanted.now called) lexemes.old.rest.now
        result lexemes.new.rest.now }
{
    let args = arguments(alloc, lexemes, fixities, levels, wanted, 0)?;
    Ok(Tall {
        tree: FullHead::Prefix(called, args.tree),
        height: args.height,
    })
}

/// The name that a head of the first form begins with.
fn prefix_name(
    fixities: &Fixities,
    wanted: &Wanted,
    op: bool,
    parts: &List<Text>,
) -> Result<Option<Text>, NoMemory>
    ensures { IfOk result (λ found. found ≡ prefix_name fixities.now wanted.now op parts.now) }
{
    match parts.as_slice() {
        [text] if wanted.may_begin(fixities, op, text) => Ok(Some(text.copy()?)),
        _ => Ok(None),
    }
}

/// What begins with a name that can't be the function's: an infix head.
#[tactic(auto, unfolding(crate::specs::Heads::long_head))]
fn long_head(
    alloc: Global,
    lexemes: &mut Lexemes<'_>,
    fixities: &Fixities,
    levels: u32,
    wanted: &Wanted,
    op: bool,
    start: At,
    long: LongName,
) -> Result<Tall<FullHead>, Stop>
    ensures { Reads (long_head levels fixities.now wanted.now op start long) lexemes.old.rest.now
        result lexemes.new.rest.now }
{
    if levels == 0 {
        return Err(Stop::TooDeep);
    }
    let left = Tall {
        tree: FullPat::Long(OpLong { op, long }, start),
        height: 1,
    };
    infix_from(alloc, lexemes, fixities, levels, wanted, left)
}

/// What begins with a name that may be the function's: an infix head, or one of the first form.
#[tactic(auto, using(phrase_reading::proofs::NameSteps::if_taken_steps), unfolding(crate::specs::Heads::short_head))]
fn short_head(
    alloc: Global,
    lexemes: &mut Lexemes<'_>,
    fixities: &Fixities,
    levels: u32,
    wanted: &Wanted,
    op: bool,
    start: At,
    long: LongName,
    text: Text,
) -> Result<Tall<FullHead>, Stop>
    ensures { Reads (short_head levels fixities.now wanted.now op start long text) lexemes.old.rest.now
        result lexemes.new.rest.now }
{
    if sees_bare(lexemes, fixities, wanted) {
        let called = bare(lexemes, fixities, wanted)?;
        if levels == 0 {
            return Err(Stop::TooDeep);
        }
        let left = Tall {
            tree: FullPat::Long(OpLong { op, long }, start),
            height: 1,
        };
        return infix_head(alloc, lexemes, fixities, levels, left, called);
    }
    let name = Name {
        text,
        line: long.line,
        col: long.col,
    };
    prefix_head(
        alloc,
        lexemes,
        fixities,
        levels,
        wanted,
        OpName { op, name },
    )
}

/// What begins with a name: an infix head, or one of the first form.
fn named_head(
    alloc: Global,
    lexemes: &mut Lexemes<'_>,
    fixities: &Fixities,
    levels: u32,
    wanted: &Wanted,
    op: bool,
    start: At,
    long: LongName,
) -> Result<Tall<FullHead>, Stop>
    ensures { Reads (named_head levels fixities.now wanted.now op start long) lexemes.old.rest.now
        result lexemes.new.rest.now }
{
    match prefix_name(fixities, wanted, op, &long.parts)? {
        Some(text) => short_head(
            alloc, lexemes, fixities, levels, wanted, op, start, long, text,
        ),
        None => long_head(alloc, lexemes, fixities, levels, wanted, op, start, long),
    }
}

/// `op vid ..`, behind the `op`.
#[tactic(auto, unfolding(crate::specs::Heads::op_head))]
fn op_head(
    alloc: Global,
    lexemes: &mut Lexemes<'_>,
    fixities: &Fixities,
    levels: u32,
    wanted: &Wanted,
    start: At,
) -> Result<Tall<FullHead>, Stop>
    ensures { Reads (op_head levels fixities.now wanted.now start) lexemes.old.rest.now
        result lexemes.new.rest.now }
{
    let long = long_behind_op(lexemes, fixities, wanted)?;
    named_head(alloc, lexemes, fixities, levels, wanted, true, start, long)
}

/// A head behind the reserved word or mark that it begins with.
fn head_word(
    alloc: Global,
    lexemes: &mut Lexemes<'_>,
    fixities: &Fixities,
    levels: u32,
    wanted: &Wanted,
    first: &Lexeme,
    word: Option<Word>,
) -> Result<Tall<FullHead>, Stop>
    ensures { Reads (head_word levels fixities.now wanted.now first.now word) lexemes.old.rest.now
        result lexemes.new.rest.now }
{
    match word {
        Some(Word::Op) => op_head(alloc, lexemes, fixities, levels, wanted, lexeme::at(first)),
        Some(Word::Open) => parens_head(
            alloc,
            lexemes,
            fixities,
            levels,
            wanted,
            lexeme::at(first),
        ),
        _ => atom_head(alloc, lexemes, fixities, levels, wanted, first),
    }
}

/// The same parts.
fn copy_of(parts: &List<Text>) -> Result<List<Text>, NoMemory>
    ensures { IfOk result (λ copy. copy ≡ parts.now) }
{
    Ok(parts.clone()?)
}

/// A head behind its first lexeme.
pub fn head_after(
    alloc: Global,
    lexemes: &mut Lexemes<'_>,
    fixities: &Fixities,
    levels: u32,
    wanted: &Wanted,
    first: &Lexeme,
) -> Result<Tall<FullHead>, Stop>
    ensures { Reads (head_after levels fixities.now wanted.now first.now) lexemes.old.rest.now
        result lexemes.new.rest.now }
{
    match &first.kind {
        LexemeKind::Reserved(text) => {
            let word = Word::of(text.as_bytes());
            head_word(alloc, lexemes, fixities, levels, wanted, first, word)
        }
        LexemeKind::Name(parts) => {
            let long = LongName {
                parts: copy_of(parts)?,
                line: first.line,
                col: first.col,
            };
            named_head(
                alloc,
                lexemes,
                fixities,
                levels,
                wanted,
                false,
                lexeme::at(first),
                long,
            )
        }
        LexemeKind::TyVar(_) => Err(Stop::Refused),
        _ => atom_head(alloc, lexemes, fixities, levels, wanted, first),
    }
}
