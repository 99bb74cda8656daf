//! Atomic expressions, read by recursive descent.

ghost use Rattle.std.specs.Prelude.{◌≡◌, IfOk, OnOk, false};
ghost use Rattle.core_expressions.specs.Expressions.{atexp_after, atexp_word, op_exp, long_exp, record_exp, record_fields, field, fields, parens, parens_from, paren_exp, tuple_exp, sequence_exp, several, exps, exp_list, bracket, bracket_items, let_exp};
ghost use Rattle.core_expressions.specs.Levels.{level};
ghost use Rattle.phrase_reading.specs.Reads.{Reads};
ghost use Rattle.phrase_reading.specs.Words.{at};

use crate::decs::decs;
use crate::exp::exp;
use cm_base::{List, NoMemory, Text};
use expression_parts::exp_starts::op_parts;
use expression_parts::nodes::{in_parens, leaf};
use infix_names::fixity::Fixities;
use phrase_reading::lexeme::{at, copy_parts};
use phrase_reading::lexemes::Lexemes;
use phrase_reading::stop::Stop;
use phrase_reading::tall::{Tall, more, one, one_above, two};
use sml_lexer::{Lexeme, LexemeKind, Word};
use sml_trees::held::both;
use sml_trees::{At, Constant, FullExp, FullExpField, LongName, OpLong};
use std::alloc::Global;

/// A name, with `op` before it or without.
fn long_exp(op: bool, at: At, lexeme: &Lexeme, parts: List<Text>) -> Tall<FullExp>
    ensures { result ≡ long_exp op at lexeme.now parts }
{
    leaf(FullExp::Long(
        OpLong {
            op,
            long: LongName {
                parts,
                line: lexeme.line,
                col: lexeme.col,
            },
        },
        at,
    ))
}

/// A name without `op`.
fn plain_name(lexeme: &Lexeme, parts: &List<Text>) -> Result<Tall<FullExp>, NoMemory>
    ensures { IfOk result (λ exp. exp ≡ long_exp false (at lexeme.now) lexeme.now parts.now) }
{
    Ok(long_exp(false, at(lexeme), lexeme, copy_parts(parts)?))
}

/// `op longvid`, behind `op`.
#[tactic(auto, using(phrase_reading::proofs::Steps::taken_steps), unfolding(crate::specs::Expressions::op_exp))]
fn op_exp(alloc: Global, lexemes: &mut Lexemes<'_>, at: At) -> Result<Tall<FullExp>, Stop>
    ensures { Reads (op_exp at) lexemes.old.rest.now result lexemes.new.rest.now }
{
    let Some(name) = lexemes.peek() else {
        return Err(Stop::Refused);
    };
    let Some(parts) = op_parts(alloc, name)? else {
        return Err(Stop::Refused);
    };
    lexemes.take();
    Ok(long_exp(true, at, name, parts))
}

/// An atomic expression, behind its first lexeme.
#[cycle(phrases)]
#[tactic(auto, using(crate::proofs::ExpSteps::atexp_steps))]
pub fn atexp(
    alloc: Global,
    lexemes: &mut Lexemes<'_>,
    fixities: &mut Fixities,
    levels: u32,
    start: &Lexeme,
) -> Result<Tall<FullExp>, Stop>
    ensures same { OnOk result (fixities.new ≡ fixities.old) }
    ensures reads { Reads ((level levels).atexp fixities.old start.now)
        lexemes.old.rest.now result lexemes.new.rest.now }
{
    if levels == 0 {
        return Err(Stop::TooDeep);
    }
    atexp_after(alloc, lexemes, fixities, levels - 1, start)
}

/// An atomic expression of which the parts have so many levels, behind its first lexeme.
#[cycle(phrases)]
fn atexp_after(
    alloc: Global,
    lexemes: &mut Lexemes<'_>,
    fixities: &mut Fixities,
    levels: u32,
    start: &Lexeme,
) -> Result<Tall<FullExp>, Stop>
    ensures same { OnOk result (fixities.new ≡ fixities.old) }
    ensures reads { Reads (atexp_after (level levels) fixities.old start.now)
        lexemes.old.rest.now result lexemes.new.rest.now }
{
    match &start.kind {
        LexemeKind::Reserved(text) => {
            atexp_word(
                alloc,
                lexemes,
                fixities,
                levels,
                at(start),
                Word::of(text.as_bytes()),
            )
        }
        LexemeKind::Name(parts) => Ok(plain_name(start, parts)?),
        LexemeKind::TyVar(_) => Err(Stop::Refused),
        LexemeKind::Int { value, .. } => Ok(leaf(FullExp::Constant(
            Constant::Int(*value),
            at(start),
        ))),
        LexemeKind::Str(text) => Ok(leaf(FullExp::Constant(
            Constant::Str(text.copy()?),
            at(start),
        ))),
        LexemeKind::Char(byte) => Ok(leaf(FullExp::Constant(Constant::Char(*byte), at(start)))),
    }
}

/// An atomic expression that begins with a reserved word or mark, behind it.
#[cycle(phrases)]
fn atexp_word(
    alloc: Global,
    lexemes: &mut Lexemes<'_>,
    fixities: &mut Fixities,
    levels: u32,
    at: At,
    word: Option<Word>,
) -> Result<Tall<FullExp>, Stop>
    ensures same { OnOk result (fixities.new ≡ fixities.old) }
    ensures reads { Reads (atexp_word (level levels) fixities.old at word)
        lexemes.old.rest.now result lexemes.new.rest.now }
{
    match word {
        Some(Word::Op) => op_exp(alloc, lexemes, at),
        Some(Word::OpenBrace) => record_exp(alloc, lexemes, fixities, levels, at),
        Some(Word::Open) => parens(alloc, lexemes, fixities, levels, at),
        Some(Word::OpenBracket) => bracket(alloc, lexemes, fixities, levels, at),
        Some(Word::Let) => let_exp(alloc, lexemes, fixities, levels, at),
        _ => Err(Stop::Refused),
    }
}

/// `{ label = exp , .. }`, behind the brace.
#[cycle(phrases)]
#[tactic(auto, using(crate::proofs::ExpSteps::record_steps))]
fn record_exp(
    alloc: Global,
    lexemes: &mut Lexemes<'_>,
    fixities: &mut Fixities,
    levels: u32,
    at: At,
) -> Result<Tall<FullExp>, Stop>
    ensures same { OnOk result (fixities.new ≡ fixities.old) }
    ensures reads { Reads (record_exp (level levels) fixities.old at)
        lexemes.old.rest.now result lexemes.new.rest.now }
{
    if lexemes.sees(Word::CloseBrace) {
        lexemes.take();
        return Ok(leaf(FullExp::Record(List::new(alloc), at)));
    }
    record_fields(alloc, lexemes, fixities, levels, at)
}

/// The fields of a record that has one or more.
#[cycle(phrases)]
#[tactic(auto, unfolding(crate::specs::Expressions::record_fields))]
fn record_fields(
    alloc: Global,
    lexemes: &mut Lexemes<'_>,
    fixities: &mut Fixities,
    levels: u32,
    at: At,
) -> Result<Tall<FullExp>, Stop>
    ensures same { OnOk result (fixities.new ≡ fixities.old) }
    ensures reads { Reads (record_fields (level levels) fixities.old at)
        lexemes.old.rest.now result lexemes.new.rest.now }
{
    let first = field(alloc, lexemes, fixities, levels)?;
    let found = fields(alloc, lexemes, fixities, levels, one(alloc, first)?)?;
    let (found, ()) = both(found, lexemes.expect(Word::CloseBrace))?;
    Ok(one_above(FullExp::Record(found.tree, at), found.height)?)
}

/// `label = exp`
#[cycle(phrases)]
#[tactic(auto, unfolding(crate::specs::Expressions::field))]
fn field(
    alloc: Global,
    lexemes: &mut Lexemes<'_>,
    fixities: &mut Fixities,
    levels: u32,
) -> Result<Tall<FullExpField>, Stop>
    ensures same { OnOk result (fixities.new ≡ fixities.old) }
    ensures reads { Reads (field (level levels) fixities.old)
        lexemes.old.rest.now result lexemes.new.rest.now }
{
    let label = lexemes.label(alloc)?;
    lexemes.expect(Word::Equals)?;
    let value = exp(alloc, lexemes, fixities, levels)?;
    Ok(Tall {
        tree: FullExpField {
            label,
            exp: value.tree,
        },
        height: value.height,
    })
}

/// Further fields of a record.
#[cycle(phrases)]
#[tactic(auto, using(phrase_reading::proofs::Steps::further_steps))]
fn fields(
    alloc: Global,
    lexemes: &mut Lexemes<'_>,
    fixities: &mut Fixities,
    levels: u32,
    first: Tall<List<FullExpField>>,
) -> Result<Tall<List<FullExpField>>, Stop>
    ensures same { OnOk result (fixities.new ≡ fixities.old) }
    ensures reads { Reads (fields (level levels) fixities.old first)
        lexemes.old.rest.now result lexemes.new.rest.now }
{
    let mut found = first;
    while lexemes.sees(Word::Comma) {
        lexemes.take();
        let next = field(alloc, lexemes, fixities, levels)?;
        found = more(found, next)?;
    }
    Ok(found)
}

/// What begins with a parenthesis, behind it.
#[cycle(phrases)]
#[tactic(auto, using(crate::proofs::ExpSteps::parens_steps))]
fn parens(
    alloc: Global,
    lexemes: &mut Lexemes<'_>,
    fixities: &mut Fixities,
    levels: u32,
    at: At,
) -> Result<Tall<FullExp>, Stop>
    ensures same { OnOk result (fixities.new ≡ fixities.old) }
    ensures reads { Reads (parens (level levels) fixities.old at)
        lexemes.old.rest.now result lexemes.new.rest.now }
{
    if lexemes.sees(Word::Close) {
        lexemes.take();
        return Ok(leaf(FullExp::Unit(at)));
    }
    let first = exp(alloc, lexemes, fixities, levels)?;
    parens_from(alloc, lexemes, fixities, levels, at, first)
}

/// What begins with a parenthesis, behind the first expression in it.
#[cycle(phrases)]
#[tactic(auto, using(crate::proofs::ExpSteps::parens_from_steps))]
fn parens_from(
    alloc: Global,
    lexemes: &mut Lexemes<'_>,
    fixities: &mut Fixities,
    levels: u32,
    at: At,
    first: Tall<FullExp>,
) -> Result<Tall<FullExp>, Stop>
    ensures same { OnOk result (fixities.new ≡ fixities.old) }
    ensures reads { Reads (parens_from (level levels) fixities.old at first)
        lexemes.old.rest.now result lexemes.new.rest.now }
{
    if lexemes.sees(Word::Comma) {
        lexemes.take();
        return tuple_exp(alloc, lexemes, fixities, levels, at, first);
    }
    if lexemes.sees(Word::Semicolon) {
        lexemes.take();
        return sequence_exp(alloc, lexemes, fixities, levels, at, first);
    }
    paren_exp(alloc, lexemes, at, first)
}

/// `( exp )`, behind the expression.
#[tactic(auto, unfolding(crate::specs::Expressions::paren_exp))]
fn paren_exp(
    alloc: Global,
    lexemes: &mut Lexemes<'_>,
    at: At,
    first: Tall<FullExp>,
) -> Result<Tall<FullExp>, Stop>
    ensures { Reads (paren_exp at first) lexemes.old.rest.now result lexemes.new.rest.now }
{
    let (first, ()) = both(first, lexemes.expect(Word::Close))?;
    Ok(in_parens(alloc, at, first)?)
}

/// `( exp , .. )`, behind its first comma.
#[cycle(phrases)]
#[tactic(auto, unfolding(crate::specs::Expressions::tuple_exp))]
fn tuple_exp(
    alloc: Global,
    lexemes: &mut Lexemes<'_>,
    fixities: &mut Fixities,
    levels: u32,
    at: At,
    first: Tall<FullExp>,
) -> Result<Tall<FullExp>, Stop>
    ensures same { OnOk result (fixities.new ≡ fixities.old) }
    ensures reads { Reads (tuple_exp (level levels) fixities.old at first)
        lexemes.old.rest.now result lexemes.new.rest.now }
{
    let found = several(alloc, lexemes, fixities, levels, Word::Comma, first)?;
    Ok(one_above(FullExp::Tuple(found.tree, at), found.height)?)
}

/// `( exp ; .. )`, behind its first semicolon.
#[cycle(phrases)]
#[tactic(auto, unfolding(crate::specs::Expressions::sequence_exp))]
fn sequence_exp(
    alloc: Global,
    lexemes: &mut Lexemes<'_>,
    fixities: &mut Fixities,
    levels: u32,
    at: At,
    first: Tall<FullExp>,
) -> Result<Tall<FullExp>, Stop>
    ensures same { OnOk result (fixities.new ≡ fixities.old) }
    ensures reads { Reads (sequence_exp (level levels) fixities.old at first)
        lexemes.old.rest.now result lexemes.new.rest.now }
{
    let found = several(alloc, lexemes, fixities, levels, Word::Semicolon, first)?;
    Ok(one_above(FullExp::Sequence(found.tree, at), found.height)?)
}

/// Several expressions in parentheses, behind the first of the marks between them.
#[cycle(phrases)]
#[tactic(auto, unfolding(crate::specs::Expressions::several))]
fn several(
    alloc: Global,
    lexemes: &mut Lexemes<'_>,
    fixities: &mut Fixities,
    levels: u32,
    mark: Word,
    first: Tall<FullExp>,
) -> Result<Tall<List<FullExp>>, Stop>
    ensures same { OnOk result (fixities.new ≡ fixities.old) }
    ensures reads { Reads (several (level levels) fixities.old mark first)
        lexemes.old.rest.now result lexemes.new.rest.now }
{
    let second = exp(alloc, lexemes, fixities, levels);
    let (first, second) = both(first, second)?;
    let two = two(alloc, first, second)?;
    let found = exps(alloc, lexemes, fixities, levels, mark, two)?;
    let (found, ()) = both(found, lexemes.expect(Word::Close))?;
    Ok(found)
}

/// Further expressions, each behind such a mark.
#[cycle(phrases)]
#[tactic(auto, using(phrase_reading::proofs::Steps::further_steps))]
fn exps(
    alloc: Global,
    lexemes: &mut Lexemes<'_>,
    fixities: &mut Fixities,
    levels: u32,
    mark: Word,
    first: Tall<List<FullExp>>,
) -> Result<Tall<List<FullExp>>, Stop>
    ensures same { OnOk result (fixities.new ≡ fixities.old) }
    ensures reads { Reads (exps (level levels) fixities.old mark first)
        lexemes.old.rest.now result lexemes.new.rest.now }
{
    let mut found = first;
    while lexemes.sees(mark) {
        lexemes.take();
        let next = exp(alloc, lexemes, fixities, levels)?;
        found = more(found, next)?;
    }
    Ok(found)
}

/// Expressions with such a mark between them.
#[cycle(phrases)]
#[tactic(auto, unfolding(crate::specs::Expressions::exp_list))]
fn exp_list(
    alloc: Global,
    lexemes: &mut Lexemes<'_>,
    fixities: &mut Fixities,
    levels: u32,
    mark: Word,
) -> Result<Tall<List<FullExp>>, Stop>
    ensures same { OnOk result (fixities.new ≡ fixities.old) }
    ensures reads { Reads (exp_list (level levels) fixities.old mark)
        lexemes.old.rest.now result lexemes.new.rest.now }
{
    let first = exp(alloc, lexemes, fixities, levels)?;
    exps(alloc, lexemes, fixities, levels, mark, one(alloc, first)?)
}

/// `[ exp , .. ]`, behind the bracket.
#[cycle(phrases)]
#[tactic(auto, using(crate::proofs::ExpSteps::bracket_steps))]
fn bracket(
    alloc: Global,
    lexemes: &mut Lexemes<'_>,
    fixities: &mut Fixities,
    levels: u32,
    at: At,
) -> Result<Tall<FullExp>, Stop>
    ensures same { OnOk result (fixities.new ≡ fixities.old) }
    ensures reads { Reads (bracket (level levels) fixities.old at)
        lexemes.old.rest.now result lexemes.new.rest.now }
{
    if lexemes.sees(Word::CloseBracket) {
        lexemes.take();
        return Ok(leaf(FullExp::List(List::new(alloc), at)));
    }
    bracket_items(alloc, lexemes, fixities, levels, at)
}

/// The expressions of a list that has one or more.
#[cycle(phrases)]
#[tactic(auto, unfolding(crate::specs::Expressions::bracket_items))]
fn bracket_items(
    alloc: Global,
    lexemes: &mut Lexemes<'_>,
    fixities: &mut Fixities,
    levels: u32,
    at: At,
) -> Result<Tall<FullExp>, Stop>
    ensures same { OnOk result (fixities.new ≡ fixities.old) }
    ensures reads { Reads (bracket_items (level levels) fixities.old at)
        lexemes.old.rest.now result lexemes.new.rest.now }
{
    let found = exp_list(alloc, lexemes, fixities, levels, Word::Comma)?;
    let (found, ()) = both(found, lexemes.expect(Word::CloseBracket))?;
    Ok(one_above(FullExp::List(found.tree, at), found.height)?)
}

/// `let decs in exp ; .. end`, behind `let`: what is declared infix in it is so up to its end alone.
#[cycle(phrases)]
#[tactic(auto, unfolding(crate::specs::Expressions::let_exp))]
fn let_exp(
    alloc: Global,
    lexemes: &mut Lexemes<'_>,
    fixities: &mut Fixities,
    levels: u32,
    at: At,
) -> Result<Tall<FullExp>, Stop>
    ensures same { OnOk result (fixities.new ≡ fixities.old) }
    ensures reads { Reads (let_exp (level levels) fixities.old at)
        lexemes.old.rest.now result lexemes.new.rest.now }
{
    let start = fixities.len();
    let found = decs(alloc, lexemes, fixities, levels)?;
    let (found, ()) = both(found, lexemes.expect(Word::In))?;
    let body = exp_list(alloc, lexemes, fixities, levels, Word::Semicolon)?;
    let ((found, body), ()) = both((found, body), lexemes.expect(Word::End))?;
    fixities.truncate(start);
    let height = found.height.max(body.height);
    Ok(one_above(FullExp::Let(found.tree, body.tree, at), height)?)
}
