//! Declarations, and sequences of them.

ghost use Rattle.std.specs.Prelude.{◌≡◌, None, Some, OnOk, take, length};
ghost use Rattle.std.specs.Option.{option_copied};
ghost use Rattle.grammars.specs.Grammar.{begins, head_or};
ghost use Rattle.core_bindings.specs.Decs.{ReadsDecs, declared};
ghost use Rattle.core_bindings.specs.Decs.{ReadsDec};
ghost use Rattle.core_expressions.specs.Levels.{below, level};
ghost use Rattle.core_expressions.specs.Declarations.{local_dec, dec_word, is_round, starts_round, next_round, round, one_round};
ghost use Rattle.expression_parts.specs.ExpStarts.{starts_dec_word};

use crate::fun_decs::fun_dec;
use crate::val_decs::val_dec;
use cm_base::List;
use core_bindings::datatype_decs::datatype_dec;
use core_bindings::exception_decs::exception_dec;
use core_bindings::infix_decs::{infix_dec, nonfix_dec, open_dec};
use core_bindings::type_decs::type_dec;
use expression_parts::exp_starts::starts_dec_word;
use infix_names::fixity::Fixities;
use phrase_reading::lexeme;
use phrase_reading::lexemes::Lexemes;
use phrase_reading::stop::Stop;
use phrase_reading::tall::{Tall, more, one_above};
use sml_lexer::{Lexeme, Word};
use sml_trees::held::both;
use sml_trees::{At, FullDec};
use std::alloc::Global;

/// `local decs in decs end`
#[cycle(phrases)]
#[tactic(auto, using(infix_names::proofs::Kept::kept_steps), unfolding(crate::specs::Declarations::local_dec))]
fn local_dec(
    alloc: Global,
    lexemes: &mut Lexemes<'_>,
    fixities: &mut Fixities,
    levels: u32,
    place: At,
) -> Result<Tall<FullDec>, Stop>
    ensures kept { OnOk result (take (length fixities.old) fixities.new ≡ fixities.old) }
    ensures reads { ReadsDec (local_dec (level levels) fixities.old place) lexemes.old.rest.now
        result fixities.new lexemes.new.rest.now }
{
    let start = fixities.len();
    let hidden = decs(alloc, lexemes, fixities, levels)?;
    let (hidden, ()) = both(hidden, lexemes.expect(Word::In))?;
    let kept = fixities.len();
    let shown = decs(alloc, lexemes, fixities, levels)?;
    let ((hidden, shown), ()) = both((hidden, shown), lexemes.expect(Word::End))?;
    fixities.keep(start, kept);
    let height = hidden.height.max(shown.height);
    Ok(one_above(FullDec::Local(hidden.tree, shown.tree, place), height)?)
}

/// A declaration behind its first word, over parts of so many levels.
#[cycle(phrases)]
#[tactic(auto, using(infix_names::proofs::Kept::kept_steps), unfolding(core_bindings::specs::Decs::plain))]
fn dec_word(
    alloc: Global,
    lexemes: &mut Lexemes<'_>,
    fixities: &mut Fixities,
    levels: u32,
    place: At,
    word: Option<Word>,
) -> Result<Tall<FullDec>, Stop>
    ensures kept { OnOk result (take (length fixities.old) fixities.new ≡ fixities.old) }
    ensures reads { ReadsDec (dec_word levels (level levels) fixities.old place word) lexemes.old.rest.now
        result fixities.new lexemes.new.rest.now }
{
    match word {
        Some(Word::Val) => val_dec(alloc, lexemes, fixities, levels, place),
        Some(Word::Fun) => fun_dec(alloc, lexemes, fixities, levels, place),
        Some(Word::TypeWord) => type_dec(alloc, lexemes, levels, place),
        Some(Word::Datatype) => datatype_dec(alloc, lexemes, levels, place),
        Some(Word::Exception) => exception_dec(alloc, lexemes, levels, place),
        Some(Word::Local) => local_dec(alloc, lexemes, fixities, levels, place),
        Some(Word::OpenWord) => open_dec(alloc, lexemes, place),
        Some(Word::Infix) => infix_dec(alloc, lexemes, fixities, place, false),
        Some(Word::Infixr) => infix_dec(alloc, lexemes, fixities, place, true),
        Some(Word::Nonfix) => nonfix_dec(alloc, lexemes, fixities, place),
        _ => Err(Stop::Refused),
    }
}

/// A declaration behind its first word.
#[cycle(phrases)]
#[tactic(auto, using(crate::proofs::DecSteps::dec_steps))]
pub fn dec(
    alloc: Global,
    lexemes: &mut Lexemes<'_>,
    fixities: &mut Fixities,
    levels: u32,
    first: &Lexeme,
) -> Result<Tall<FullDec>, Stop>
    ensures kept { OnOk result (take (length fixities.old) fixities.new ≡ fixities.old) }
    ensures reads { ReadsDec ((level levels).dec fixities.old first.now) lexemes.old.rest.now
        result fixities.new lexemes.new.rest.now }
{
    if levels == 0 {
        return Err(Stop::TooDeep);
    }
    dec_word(
        alloc,
        lexemes,
        fixities,
        levels - 1,
        lexeme::at(first),
        lexeme::word(first),
    )
}

/// The lexeme of one more round, if one stands next: a declaration's first word, or a semicolon.
fn next_round<'a>(lexemes: &Lexemes<'a>) -> Option<&'a Lexeme>
    ensures { option_copied result ≡ next_round (head_or lexemes.now.rest.now None) }
{
    match lexemes.peek() {
        Some(next) if is_round(lexeme::word(next)) => Some(next),
        _ => None,
    }
}

/// Whether a declaration begins with this word, or it is a semicolon.
fn is_round(word: Option<Word>) -> bool
    ensures { result ≡ is_round word }
{
    match word {
        Some(Word::Semicolon) => true,
        _ => starts_dec_word(word),
    }
}

/// One more round, behind its lexeme.
#[cycle(phrases)]
#[tactic(auto, using(infix_names::proofs::Kept::kept_steps), unfolding(crate::specs::Declarations::next_dec))]
fn round(
    alloc: Global,
    lexemes: &mut Lexemes<'_>,
    fixities: &mut Fixities,
    levels: u32,
    found: Tall<List<FullDec>>,
    first: &Lexeme,
) -> Result<Tall<List<FullDec>>, Stop>
    ensures kept { OnOk result (take (length fixities.old) fixities.new ≡ fixities.old) }
    ensures reads { ReadsDecs (round levels (below levels) (declared found fixities.old) first.now)
        lexemes.old.rest.now result fixities.new lexemes.new.rest.now }
{
    if lexeme::is(Word::Semicolon, first) {
        return Ok(found);
    }
    let next = dec(alloc, lexemes, fixities, levels, first)?;
    Ok(more(found, next)?)
}

/// Whether one more round stands next: a declaration, or a semicolon.
fn sees_round(lexemes: &Lexemes<'_>) -> bool
    ensures { result ≡ begins starts_round (head_or lexemes.now.rest.now None) }
{
    match lexemes.peek() {
        Some(next) => is_round(lexeme::word(next)),
        None => false,
    }
}

/// One more round.
#[cycle(phrases)]
#[tactic(auto, using(crate::proofs::DecSteps::round_steps))]
fn one_round(
    alloc: Global,
    lexemes: &mut Lexemes<'_>,
    fixities: &mut Fixities,
    levels: u32,
    found: Tall<List<FullDec>>,
) -> Result<Tall<List<FullDec>>, Stop>
    ensures kept { OnOk result (take (length fixities.old) fixities.new ≡ fixities.old) }
    ensures reads { ReadsDecs (one_round levels (below levels) (declared found fixities.old))
        lexemes.old.rest.now result fixities.new lexemes.new.rest.now }
{
    let Some(first) = next_round(lexemes) else {
        return Err(Stop::Refused);
    };
    lexemes.take();
    round(alloc, lexemes, fixities, levels, found, first)
}

/// Declarations and semicolons, none or more.
#[cycle(phrases)]
#[tactic(auto, using(crate::proofs::DecSteps::decs_steps))]
pub fn decs(
    alloc: Global,
    lexemes: &mut Lexemes<'_>,
    fixities: &mut Fixities,
    levels: u32,
) -> Result<Tall<List<FullDec>>, Stop>
    ensures kept { OnOk result (take (length fixities.old) fixities.new ≡ fixities.old) }
    ensures reads { ReadsDecs ((level levels).decs fixities.old) lexemes.old.rest.now
        result fixities.new lexemes.new.rest.now }
{
    let mut found = Tall {
        tree: List::new(alloc),
        height: 0,
    };
    while sees_round(lexemes) {
        found = one_round(alloc, lexemes, fixities, levels, found)?;
    }
    Ok(found)
}
