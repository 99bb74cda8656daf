//! The declarations of a unit's top level.

ghost use Rattle.std.specs.Prelude.{◌≡◌, None, Some};
ghost use Rattle.std.specs.Option.{option_copied};
ghost use Rattle.grammars.specs.Grammar.{head_or};
ghost use Rattle.phrase_reading.specs.Reads.{Reads};
ghost use Rattle.signature_parser.specs.Rounds.{next_begin};
ghost use Rattle.module_parser.specs.Units.{starts_top, top_structures, top_signatures, top_functors, top_funsigs, top_word, semicolon, top_round, topdecs_from, topdecs};

use crate::functors::{fun_binds, funsig_binds};
use crate::str_decs::str_binds;
use cm_base::List;
use infix_names::fixity::Fixities;
use phrase_reading::lexeme;
use phrase_reading::lexemes::Lexemes;
use phrase_reading::stop::Stop;
use phrase_reading::tall::{Tall, more, one_above};
use signature_parser::sig_exps::sig_binds;
use sml_lexer::{Lexeme, Word};
use sml_trees::{At, FullTopDec};
use std::alloc::Global;

/// How many levels are left for what stands in a declaration of the top level.
const PARTS: u32 = 127;

/// Whether a declaration of the top level begins with this word.
fn starts_top(word: Option<Word>) -> bool
    ensures { result ≡ starts_top word }
{
    match word {
        Some(Word::Structure) => true,
        Some(Word::Signature) => true,
        Some(Word::Functor) => true,
        Some(Word::Funsig) => true,
        _ => false,
    }
}

/// The next lexeme, if it begins a declaration of the top level.
fn next_topdec<'a>(lexemes: &Lexemes<'a>) -> Option<&'a Lexeme>
    ensures { option_copied result ≡ next_begin starts_top (head_or lexemes.now.rest.now None) }
{
    match lexemes.peek() {
        Some(next) if starts_top(lexeme::word(next)) => Some(next),
        _ => None,
    }
}

/// `structure strbind and ..`
#[tactic(auto, unfolding(crate::specs::Units::top_structures))]
fn top_structures(
    alloc: Global,
    lexemes: &mut Lexemes<'_>,
    levels: u32,
    place: At,
) -> Result<Tall<FullTopDec>, Stop>
    ensures { Reads (top_structures levels place) lexemes.old.rest.now result lexemes.new.rest.now }
{
    let mut fixities = Fixities::initial(alloc)?;
    let found = str_binds(alloc, lexemes, &mut fixities, levels)?;
    Ok(one_above(FullTopDec::Structures(found.tree, place), found.height)?)
}

/// `signature sigid = sigexp and ..`
#[tactic(auto, unfolding(crate::specs::Units::top_signatures))]
fn top_signatures(
    alloc: Global,
    lexemes: &mut Lexemes<'_>,
    levels: u32,
    place: At,
) -> Result<Tall<FullTopDec>, Stop>
    ensures { Reads (top_signatures levels place) lexemes.old.rest.now result lexemes.new.rest.now }
{
    let found = sig_binds(alloc, lexemes, levels, Word::Equals)?;
    Ok(one_above(FullTopDec::Signatures(found.tree, place), found.height)?)
}

/// `functor funbind and ..`
#[tactic(auto, unfolding(crate::specs::Units::top_functors))]
fn top_functors(
    alloc: Global,
    lexemes: &mut Lexemes<'_>,
    levels: u32,
    place: At,
) -> Result<Tall<FullTopDec>, Stop>
    ensures { Reads (top_functors levels place) lexemes.old.rest.now result lexemes.new.rest.now }
{
    let found = fun_binds(alloc, lexemes, levels)?;
    Ok(one_above(FullTopDec::Functors(found.tree, place), found.height)?)
}

/// `funsig funid ( strid : sigexp ) = sigexp and ..`
#[tactic(auto, unfolding(crate::specs::Units::top_funsigs))]
fn top_funsigs(
    alloc: Global,
    lexemes: &mut Lexemes<'_>,
    levels: u32,
    place: At,
) -> Result<Tall<FullTopDec>, Stop>
    ensures { Reads (top_funsigs levels place) lexemes.old.rest.now result lexemes.new.rest.now }
{
    let found = funsig_binds(alloc, lexemes, levels)?;
    Ok(one_above(FullTopDec::Funsigs(found.tree, place), found.height)?)
}

/// A declaration of the top level behind its first word, over parts of so many levels.
fn top_word(
    alloc: Global,
    lexemes: &mut Lexemes<'_>,
    levels: u32,
    place: At,
    word: Option<Word>,
) -> Result<Tall<FullTopDec>, Stop>
    ensures { Reads (top_word levels place word) lexemes.old.rest.now result lexemes.new.rest.now }
{
    match word {
        Some(Word::Structure) => top_structures(alloc, lexemes, levels, place),
        Some(Word::Signature) => top_signatures(alloc, lexemes, levels, place),
        Some(Word::Functor) => top_functors(alloc, lexemes, levels, place),
        Some(Word::Funsig) => top_funsigs(alloc, lexemes, levels, place),
        _ => Err(Stop::Refused),
    }
}

/// Takes the semicolon behind a declaration, if there is one.
#[tactic(auto, using(crate::proofs::TopSteps::semicolon_steps))]
fn semicolon(lexemes: &mut Lexemes<'_>) -> Result<(), Stop>
    ensures { Reads semicolon lexemes.old.rest.now result lexemes.new.rest.now }
{
    if lexemes.sees(Word::Semicolon) {
        lexemes.take();
    }
    Ok(())
}

/// One more declaration of the top level behind its first word, and its semicolon.
#[tactic(auto, unfolding(crate::specs::Units::top_round))]
fn top_round(
    alloc: Global,
    lexemes: &mut Lexemes<'_>,
    levels: u32,
    found: Tall<List<FullTopDec>>,
    first: &Lexeme,
) -> Result<Tall<List<FullTopDec>>, Stop>
    ensures { Reads (top_round levels found first.now) lexemes.old.rest.now result lexemes.new.rest.now }
{
    let next = top_word(
        alloc,
        lexemes,
        levels,
        lexeme::at(first),
        lexeme::word(first),
    )?;
    semicolon(lexemes)?;
    Ok(more(found, next)?)
}

/// Further declarations of the top level.
#[tactic(auto, using(crate::proofs::TopSteps::topdecs_steps))]
fn topdecs_from(
    alloc: Global,
    lexemes: &mut Lexemes<'_>,
    levels: u32,
    found: Tall<List<FullTopDec>>,
) -> Result<Tall<List<FullTopDec>>, Stop>
    ensures { Reads (topdecs_from levels found) lexemes.old.rest.now result lexemes.new.rest.now }
{
    let mut found = found;
    while let Some(first) = next_topdec(lexemes) {
        lexemes.take();
        found = top_round(alloc, lexemes, levels, found, first)?;
    }
    Ok(found)
}

/// The declarations of a unit.
#[tactic(auto, unfolding(crate::specs::Units::topdecs))]
pub fn topdecs(alloc: Global, lexemes: &mut Lexemes<'_>) -> Result<Tall<List<FullTopDec>>, Stop>
    ensures { Reads topdecs lexemes.old.rest.now result lexemes.new.rest.now }
{
    let none = Tall {
        tree: List::new(alloc),
        height: 0,
    };
    topdecs_from(alloc, lexemes, PARTS, none)
}
