//! The declarations in structures.

ghost use Rattle.std.specs.Prelude.{◌≡◌, ◌-◌, ◌<◌, None, Some, OnOk, take, length};
ghost use Rattle.std.specs.Option.{option_copied};
ghost use Rattle.grammars.specs.Grammar.{head_or};
ghost use Rattle.core_bindings.specs.Decs.{ReadsDecs, declared};
ghost use Rattle.phrase_reading.specs.Reads.{Reads};
ghost use Rattle.core_bindings.specs.Decs.{ReadsDec};
ghost use Rattle.phrase_reading.specs.Words.{word};
ghost use Rattle.signature_parser.specs.Joined.{bindings, bindings_from};
ghost use Rattle.signature_parser.specs.Rounds.{next_begin};
ghost use Rattle.module_parser.specs.StrLevels.{str_level, str_below};
ghost use Rattle.module_parser.specs.Structures.{is_str_round, str_bind, structures, local_str, core_dec, str_dec_word, str_dec_of, str_round};

use crate::str_exps::str_bind;
use cm_base::List;
use core_expressions::decs::dec;
use expression_parts::exp_starts::starts_dec_word;
use infix_names::fixity::Fixities;
use phrase_reading::lexeme;
use phrase_reading::lexemes::Lexemes;
use phrase_reading::stop::Stop;
use phrase_reading::tall::{Tall, more, one_above};
use signature_parser::joined::{Joined, alone, joined_more, joined_one, next_name};
use signature_parser::names::module_name;
use sml_lexer::{Lexeme, Word};
use sml_trees::held::both;
use sml_trees::{At, FullStrBind, FullStrDec};
use std::alloc::Global;

/// Whether a declaration in a structure begins with this word, or it is a semicolon.
fn is_str_round(word: Option<Word>) -> bool
    ensures { result ≡ is_str_round word }
{
    match word {
        Some(Word::Structure) => true,
        Some(Word::Semicolon) => true,
        _ => starts_dec_word(word),
    }
}

/// The next lexeme, if it begins a declaration in a structure or is a semicolon.
pub fn next_str_dec<'a>(lexemes: &Lexemes<'a>) -> Option<&'a Lexeme>
    ensures { option_copied result ≡ next_begin is_str_round (head_or lexemes.now.rest.now None) }
{
    match lexemes.peek() {
        Some(next) if is_str_round(lexeme::word(next)) => Some(next),
        _ => None,
    }
}

/// Further structures that are bound, each behind its `and`.
#[cycle(strs)]
#[tactic(auto, using(signature_parser::proofs::BoundSteps::bindings_steps))]
fn str_binds_from(
    alloc: Global,
    lexemes: &mut Lexemes<'_>,
    fixities: &mut Fixities,
    levels: u32,
    found: Joined<List<FullStrBind>>,
) -> Result<Joined<List<FullStrBind>>, Stop>
    ensures same { OnOk result (fixities.new ≡ fixities.old) }
    ensures reads { Reads (bindings_from (str_bind levels (str_level levels) fixities.old) found)
        lexemes.old.rest.now result lexemes.new.rest.now }
{
    let mut found = found;
    while let Some(name) = next_name(lexemes, found.joined)? {
        let next = str_bind(alloc, lexemes, fixities, levels, name)?;
        found = joined_more(found, next)?;
    }
    Ok(found)
}

/// Structures that are bound.
#[cycle(strs)]
#[tactic(auto, unfolding(signature_parser::specs::Joined::bindings))]
pub fn str_binds(
    alloc: Global,
    lexemes: &mut Lexemes<'_>,
    fixities: &mut Fixities,
    levels: u32,
) -> Result<Tall<List<FullStrBind>>, Stop>
    ensures same { OnOk result (fixities.new ≡ fixities.old) }
    ensures reads { Reads (bindings (str_bind levels (str_level levels) fixities.old)) lexemes.old.rest.now
        result lexemes.new.rest.now }
{
    let name = module_name(lexemes)?;
    let first = str_bind(alloc, lexemes, fixities, levels, name)?;
    let found = joined_one(alloc, first)?;
    let found = str_binds_from(alloc, lexemes, fixities, levels, found)?;
    alone(lexemes, found)
}

/// `structure strbind and ..`
#[cycle(strs)]
#[tactic(auto, unfolding(crate::specs::Structures::structures))]
fn structures(
    alloc: Global,
    lexemes: &mut Lexemes<'_>,
    fixities: &mut Fixities,
    levels: u32,
    place: At,
) -> Result<Tall<FullStrDec>, Stop>
    ensures same { OnOk result (fixities.new ≡ fixities.old) }
    ensures reads { Reads (structures levels (str_level levels) fixities.old place) lexemes.old.rest.now
        result lexemes.new.rest.now }
{
    let found = str_binds(alloc, lexemes, fixities, levels)?;
    Ok(one_above(FullStrDec::Structures(found.tree, place), found.height)?)
}

/// `local strdec in strdec end`
#[cycle(strs)]
#[tactic(auto, using(infix_names::proofs::Kept::kept_steps), unfolding(crate::specs::Structures::local_str))]
fn local_str(
    alloc: Global,
    lexemes: &mut Lexemes<'_>,
    fixities: &mut Fixities,
    levels: u32,
    place: At,
) -> Result<Tall<FullStrDec>, Stop>
    ensures kept { OnOk result (take (length fixities.old) fixities.new ≡ fixities.old) }
    ensures reads { ReadsDec (local_str (str_level levels) fixities.old place) lexemes.old.rest.now
        result fixities.new lexemes.new.rest.now }
{
    let start = fixities.len();
    let hidden = str_decs(alloc, lexemes, fixities, levels)?;
    let (hidden, ()) = both(hidden, lexemes.expect(Word::In))?;
    let kept = fixities.len();
    let shown = str_decs(alloc, lexemes, fixities, levels)?;
    let ((hidden, shown), ()) = both((hidden, shown), lexemes.expect(Word::End))?;
    fixities.keep(start, kept);
    let height = hidden.height.max(shown.height);
    Ok(one_above(FullStrDec::Local(hidden.tree, shown.tree, place), height)?)
}

/// A declaration of the core behind its first word.
#[tactic(auto, unfolding(crate::specs::Structures::core_dec))]
fn core_dec(
    alloc: Global,
    lexemes: &mut Lexemes<'_>,
    fixities: &mut Fixities,
    levels: u32,
    first: &Lexeme,
) -> Result<Tall<FullStrDec>, Stop>
    ensures kept { OnOk result (take (length fixities.old) fixities.new ≡ fixities.old) }
    ensures reads { ReadsDec (core_dec levels fixities.old first.now) lexemes.old.rest.now
        result fixities.new lexemes.new.rest.now }
{
    let found = dec(alloc, lexemes, fixities, levels, first)?;
    Ok(Tall {
        tree: FullStrDec::Core(found.tree),
        height: found.height,
    })
}

/// A declaration behind its first word, which opened one of its levels.
#[cycle(strs)]
#[tactic(auto, using(infix_names::proofs::Kept::kept_steps), unfolding(core_bindings::specs::Decs::plain))]
fn str_dec_word(
    alloc: Global,
    lexemes: &mut Lexemes<'_>,
    fixities: &mut Fixities,
    levels: u32,
    first: &Lexeme,
) -> Result<Tall<FullStrDec>, Stop>
    requires { 0 < levels }
    ensures kept { OnOk result (take (length fixities.old) fixities.new ≡ fixities.old) }
    ensures reads { ReadsDec (str_dec_word levels (str_level (levels - 1)) fixities.old first.now (word first.now))
        lexemes.old.rest.now result fixities.new lexemes.new.rest.now }
{
    let place = lexeme::at(first);
    match lexeme::word(first) {
        Some(Word::Structure) => structures(alloc, lexemes, fixities, levels - 1, place),
        Some(Word::Local) => local_str(alloc, lexemes, fixities, levels - 1, place),
        _ => core_dec(alloc, lexemes, fixities, levels, first),
    }
}

/// A declaration behind its first word.
#[cycle(strs)]
#[tactic(auto, using(crate::proofs::StrSteps::dec_steps))]
fn str_dec(
    alloc: Global,
    lexemes: &mut Lexemes<'_>,
    fixities: &mut Fixities,
    levels: u32,
    first: &Lexeme,
) -> Result<Tall<FullStrDec>, Stop>
    ensures kept { OnOk result (take (length fixities.old) fixities.new ≡ fixities.old) }
    ensures reads { ReadsDec (str_dec_of levels (str_below levels) fixities.old first.now)
        lexemes.old.rest.now result fixities.new lexemes.new.rest.now }
{
    if levels == 0 {
        return Err(Stop::TooDeep);
    }
    str_dec_word(alloc, lexemes, fixities, levels, first)
}

/// One more declaration behind its first word, or nothing behind a semicolon.
#[cycle(strs)]
#[tactic(auto, using(infix_names::proofs::Kept::kept_steps), unfolding(crate::specs::Structures::next_str_dec))]
fn str_round(
    alloc: Global,
    lexemes: &mut Lexemes<'_>,
    fixities: &mut Fixities,
    levels: u32,
    found: Tall<List<FullStrDec>>,
    first: &Lexeme,
) -> Result<Tall<List<FullStrDec>>, Stop>
    ensures kept { OnOk result (take (length fixities.old) fixities.new ≡ fixities.old) }
    ensures reads { ReadsDecs (str_round levels (str_below levels) (declared found fixities.old) first.now)
        lexemes.old.rest.now result fixities.new lexemes.new.rest.now }
{
    if lexeme::is(Word::Semicolon, first) {
        return Ok(found);
    }
    let next = str_dec(alloc, lexemes, fixities, levels, first)?;
    Ok(more(found, next)?)
}

/// Declarations and semicolons, none or more.
#[cycle(strs)]
#[tactic(auto, using(crate::proofs::StrSteps::str_decs_steps))]
pub fn str_decs(
    alloc: Global,
    lexemes: &mut Lexemes<'_>,
    fixities: &mut Fixities,
    levels: u32,
) -> Result<Tall<List<FullStrDec>>, Stop>
    ensures kept { OnOk result (take (length fixities.old) fixities.new ≡ fixities.old) }
    ensures reads { ReadsDecs ((str_level levels).decs fixities.old) lexemes.old.rest.now
        result fixities.new lexemes.new.rest.now }
{
    let mut found = Tall {
        tree: List::new(alloc),
        height: 0,
    };
    while let Some(first) = next_str_dec(lexemes) {
        lexemes.take();
        found = str_round(alloc, lexemes, fixities, levels, found, first)?;
    }
    Ok(found)
}
