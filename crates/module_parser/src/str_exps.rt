//! Structure expressions, read by recursive descent.

ghost use Rattle.std.specs.Prelude.{◌≡◌, ◌-◌, ◌<◌, None, Some, OnOk};
ghost use Rattle.std.specs.Option.{option_copied};
ghost use Rattle.grammars.specs.Grammar.{begins, head_or};
ghost use Rattle.phrase_reading.specs.Names.{strid_of};
ghost use Rattle.phrase_reading.specs.Reads.{Reads};
ghost use Rattle.phrase_reading.specs.Words.{is, at, made};
ghost use Rattle.signature_parser.specs.Joined.{module_name_of};
ghost use Rattle.module_parser.specs.StrLevels.{str_level};
ghost use Rattle.module_parser.specs.Structures.{starts_str, str, str_bind, struct_str, let_str, of_str, of_decs, of_strdec, argument, first_at, is_str_round, str_name, str_named, str_atom, str_within, next_str};
ghost use Rattle.signature_parser.specs.Joined.{alone};
ghost use Rattle.signature_parser.specs.Rounds.{next_begin};

use crate::seals::{maybe_seal, seals};
use crate::str_decs::{next_str_dec, str_decs};
use cm_base::{List, Text};
use core_bindings::infix_decs::{is_strid, strid_of};
use infix_names::fixity::Fixities;
use phrase_reading::binders::single;
use phrase_reading::lexeme;
use phrase_reading::lexemes::Lexemes;
use phrase_reading::stop::Stop;
use phrase_reading::tall::{Tall, boxed, boxed_first, one_above};
use signature_parser::joined::{Joined, alone, apart};
use signature_parser::names::module_name_of;
use sml_lexer::{Lexeme, Word};
use sml_trees::held::both;
use sml_trees::{At, FullStrBind, FullStrExp, LongName, Name};
use std::alloc::Global;

/// Whether a structure expression begins with the lexeme.
fn starts_str(lexeme: &Lexeme) -> bool
    ensures { result ≡ starts_str lexeme.now }
{
    lexeme::is(Word::Struct, lexeme) || (lexeme::is(Word::Let, lexeme) || is_strid(lexeme))
}

/// The next lexeme, if a structure expression begins with it.
fn next_str<'a>(lexemes: &Lexemes<'a>) -> Option<&'a Lexeme>
    ensures { option_copied result ≡ next_str (head_or lexemes.now.rest.now None) }
{
    match lexemes.peek() {
        Some(next) if starts_str(next) => Some(next),
        _ => None,
    }
}

/// A structure expression of at most so many levels.
#[cycle(strs)]
#[tactic(auto, using(crate::proofs::StrSteps::str_steps))]
pub fn str_exp(
    alloc: Global,
    lexemes: &mut Lexemes<'_>,
    fixities: &mut Fixities,
    levels: u32,
) -> Result<Joined<FullStrExp>, Stop>
    ensures same { OnOk result (fixities.new ≡ fixities.old) }
    ensures reads { Reads (str (str_level levels) fixities.old) lexemes.old.rest.now result lexemes.new.rest.now }
{
    let Some(first) = next_str(lexemes) else {
        return Err(Stop::Refused);
    };
    lexemes.take();
    str_after(alloc, lexemes, fixities, levels, first)
}

/// A structure expression of at most so many levels, behind its first lexeme.
#[cycle(strs)]
#[tactic(auto, using(crate::proofs::StrSteps::after_steps))]
fn str_after(
    alloc: Global,
    lexemes: &mut Lexemes<'_>,
    fixities: &mut Fixities,
    levels: u32,
    first: &Lexeme,
) -> Result<Joined<FullStrExp>, Stop>
    ensures same { OnOk result (fixities.new ≡ fixities.old) }
    ensures reads { Reads ((str_level levels).str_after fixities.old first.now) lexemes.old.rest.now
        result lexemes.new.rest.now }
{
    if levels == 0 {
        return Err(Stop::TooDeep);
    }
    str_within(alloc, lexemes, fixities, levels, first)
}

/// A structure expression behind its first lexeme, which opened one of its levels.
#[cycle(strs)]
#[tactic(auto, unfolding(crate::specs::Structures::str_within))]
fn str_within(
    alloc: Global,
    lexemes: &mut Lexemes<'_>,
    fixities: &mut Fixities,
    levels: u32,
    first: &Lexeme,
) -> Result<Joined<FullStrExp>, Stop>
    requires { 0 < levels }
    ensures same { OnOk result (fixities.new ≡ fixities.old) }
    ensures reads { Reads (str_within levels (str_level (levels - 1)) fixities.old first.now) lexemes.old.rest.now
        result lexemes.new.rest.now }
{
    let atom = str_atom(alloc, lexemes, fixities, levels - 1, first)?;
    seals(alloc, lexemes, levels, lexeme::at(first), apart(atom))
}

/// A structure expression without a signature behind it, behind its first lexeme.
#[cycle(strs)]
fn str_atom(
    alloc: Global,
    lexemes: &mut Lexemes<'_>,
    fixities: &mut Fixities,
    levels: u32,
    first: &Lexeme,
) -> Result<Tall<FullStrExp>, Stop>
    ensures same { OnOk result (fixities.new ≡ fixities.old) }
    ensures reads { Reads (str_atom (str_level levels) fixities.old first.now) lexemes.old.rest.now
        result lexemes.new.rest.now }
{
    let place = lexeme::at(first);
    if lexeme::is(Word::Struct, first) {
        return struct_str(alloc, lexemes, fixities, levels, place);
    }
    if lexeme::is(Word::Let, first) {
        return let_str(alloc, lexemes, fixities, levels, place);
    }
    match module_name_of(first)? {
        Some(text) => short_named(alloc, lexemes, fixities, levels, first, text),
        None => long_named(lexemes, first),
    }
}

/// A structure of these parts, at a lexeme.
fn str_name(first: &Lexeme, parts: List<Text>) -> Tall<FullStrExp>
    ensures { result ≡ str_name first.now parts }
{
    let long = LongName {
        parts,
        line: first.line,
        col: first.col,
    };
    Tall {
        tree: FullStrExp::Named(long, lexeme::at(first)),
        height: 1,
    }
}

/// The structure that a lexeme names.
fn long_named(lexemes: &Lexemes<'_>, first: &Lexeme) -> Result<Tall<FullStrExp>, Stop>
    ensures { Reads (made (str_name first.now) (strid_of first.now)) lexemes.now.rest.now result
        lexemes.now.rest.now }
{
    let Some(parts) = strid_of(first)? else {
        return Err(Stop::Refused);
    };
    Ok(str_name(first, parts))
}

/// A name without structures before it: that of a functor where a parenthesis stands behind it, else of a structure.
#[cycle(strs)]
#[tactic(auto, using(phrase_reading::proofs::NameSteps::mark_steps))]
fn short_named(
    alloc: Global,
    lexemes: &mut Lexemes<'_>,
    fixities: &mut Fixities,
    levels: u32,
    first: &Lexeme,
    text: Text,
) -> Result<Tall<FullStrExp>, Stop>
    ensures same { OnOk result (fixities.new ≡ fixities.old) }
    ensures reads { Reads (str_named (str_level levels) fixities.old first.now (Some text)) lexemes.old.rest.now
        result lexemes.new.rest.now }
{
    if lexemes.sees(Word::Open) {
        lexemes.take();
        let name = Name {
            text,
            line: first.line,
            col: first.col,
        };
        return argument(alloc, lexemes, fixities, levels, name, lexeme::at(first));
    }
    Ok(str_name(first, single(alloc, text)?))
}

/// A functor's argument, behind the parenthesis.
#[cycle(strs)]
#[tactic(auto, using(crate::proofs::StrSteps::argument_steps))]
fn argument(
    alloc: Global,
    lexemes: &mut Lexemes<'_>,
    fixities: &mut Fixities,
    levels: u32,
    name: Name,
    place: At,
) -> Result<Tall<FullStrExp>, Stop>
    ensures same { OnOk result (fixities.new ≡ fixities.old) }
    ensures reads { Reads (argument (str_level levels) fixities.old name place) lexemes.old.rest.now
        result lexemes.new.rest.now }
{
    if let Some(first) = next_str(lexemes) {
        lexemes.take();
        return of_str(alloc, lexemes, fixities, levels, first, name, place);
    }
    of_strdec(alloc, lexemes, fixities, levels, name, place)
}

/// `funid ( strexp )`, behind the first lexeme of the argument.
#[cycle(strs)]
#[tactic(auto, unfolding(crate::specs::Structures::of_str, signature_parser::specs::Joined::alone))]
fn of_str(
    alloc: Global,
    lexemes: &mut Lexemes<'_>,
    fixities: &mut Fixities,
    levels: u32,
    first: &Lexeme,
    name: Name,
    place: At,
) -> Result<Tall<FullStrExp>, Stop>
    ensures same { OnOk result (fixities.new ≡ fixities.old) }
    ensures reads { Reads (of_str ((str_level levels).str_after fixities.old first.now) name place)
        lexemes.old.rest.now result lexemes.new.rest.now }
{
    let whole = str_after(alloc, lexemes, fixities, levels, first)?;
    let found = alone(lexemes, whole)?;
    let (found, ()) = both(found, lexemes.expect(Word::Close))?;
    let found = boxed(alloc, found)?;
    Ok(one_above(FullStrExp::Functor(name, found.tree, place), found.height)?)
}

/// Where declarations begin: at the next lexeme, or at the functor where there are none.
fn begin_of(lexemes: &Lexemes<'_>, functor: At) -> At
    ensures { result ≡ first_at (next_begin is_str_round (head_or lexemes.now.rest.now None)) functor }
{
    match next_str_dec(lexemes) {
        Some(first) => lexeme::at(first),
        None => functor,
    }
}

/// `funid ( strdec )`, behind the parenthesis.
#[cycle(strs)]
#[tactic(auto, using(crate::proofs::StrSteps::strdec_steps))]
fn of_strdec(
    alloc: Global,
    lexemes: &mut Lexemes<'_>,
    fixities: &mut Fixities,
    levels: u32,
    name: Name,
    place: At,
) -> Result<Tall<FullStrExp>, Stop>
    ensures same { OnOk result (fixities.new ≡ fixities.old) }
    ensures reads { Reads (of_strdec (str_level levels) fixities.old name place) lexemes.old.rest.now
        result lexemes.new.rest.now }
{
    let begin = begin_of(lexemes, place);
    of_decs(alloc, lexemes, fixities, levels, name, begin, place)
}

/// `funid ( strdec )`, behind the parenthesis, with the place where the declarations begin.
#[cycle(strs)]
#[tactic(auto, unfolding(crate::specs::Structures::of_decs))]
fn of_decs(
    alloc: Global,
    lexemes: &mut Lexemes<'_>,
    fixities: &mut Fixities,
    levels: u32,
    name: Name,
    begin: At,
    place: At,
) -> Result<Tall<FullStrExp>, Stop>
    ensures same { OnOk result (fixities.new ≡ fixities.old) }
    ensures reads { Reads (of_decs ((str_level levels).decs fixities.old) name begin place) lexemes.old.rest.now
        result lexemes.new.rest.now }
{
    let start = fixities.len();
    let inner = str_decs(alloc, lexemes, fixities, levels)?;
    let (inner, ()) = both(inner, lexemes.expect(Word::Close))?;
    fixities.truncate(start);
    Ok(one_above(
        FullStrExp::FunctorOfDecs(name, inner.tree, begin, place),
        inner.height,
    )?)
}

/// `struct strdec end`, behind `struct`.
#[cycle(strs)]
#[tactic(auto, unfolding(crate::specs::Structures::struct_str))]
fn struct_str(
    alloc: Global,
    lexemes: &mut Lexemes<'_>,
    fixities: &mut Fixities,
    levels: u32,
    place: At,
) -> Result<Tall<FullStrExp>, Stop>
    ensures same { OnOk result (fixities.new ≡ fixities.old) }
    ensures reads { Reads (struct_str (str_level levels) fixities.old place) lexemes.old.rest.now
        result lexemes.new.rest.now }
{
    let start = fixities.len();
    let inner = str_decs(alloc, lexemes, fixities, levels)?;
    let (inner, ()) = both(inner, lexemes.expect(Word::End))?;
    fixities.truncate(start);
    Ok(one_above(FullStrExp::Struct(inner.tree, place), inner.height)?)
}

/// A structure expression behind which no `and` was taken.
#[cycle(strs)]
#[tactic(auto, unfolding(signature_parser::specs::Joined::alone))]
fn lone_str(
    alloc: Global,
    lexemes: &mut Lexemes<'_>,
    fixities: &mut Fixities,
    levels: u32,
) -> Result<Tall<FullStrExp>, Stop>
    ensures same { OnOk result (fixities.new ≡ fixities.old) }
    ensures reads { Reads (alone (str (str_level levels) fixities.old)) lexemes.old.rest.now
        result lexemes.new.rest.now }
{
    let whole = str_exp(alloc, lexemes, fixities, levels)?;
    alone(lexemes, whole)
}

/// `let strdec in strexp end`, behind `let`.
#[cycle(strs)]
#[tactic(auto, unfolding(crate::specs::Structures::let_str))]
fn let_str(
    alloc: Global,
    lexemes: &mut Lexemes<'_>,
    fixities: &mut Fixities,
    levels: u32,
    place: At,
) -> Result<Tall<FullStrExp>, Stop>
    ensures same { OnOk result (fixities.new ≡ fixities.old) }
    ensures reads { Reads (let_str (str_level levels) fixities.old place) lexemes.old.rest.now
        result lexemes.new.rest.now }
{
    let start = fixities.len();
    let inner = str_decs(alloc, lexemes, fixities, levels)?;
    let (inner, ()) = both(inner, lexemes.expect(Word::In))?;
    let body = lone_str(alloc, lexemes, fixities, levels)?;
    let ((inner, body), ()) = both((inner, body), lexemes.expect(Word::End))?;
    fixities.truncate(start);
    let (body, inner) = boxed_first(alloc, body, inner)?;
    let height = inner.height.max(body.height);
    Ok(one_above(FullStrExp::Within(inner.tree, body.tree, place), height)?)
}

/// `strid [ : sigexp | :> sigexp ] = strexp`, behind the name, over parts of so many levels.
#[cycle(strs)]
#[tactic(auto, unfolding(crate::specs::Structures::str_bind))]
pub fn str_bind(
    alloc: Global,
    lexemes: &mut Lexemes<'_>,
    fixities: &mut Fixities,
    levels: u32,
    name: Name,
) -> Result<Joined<FullStrBind>, Stop>
    ensures same { OnOk result (fixities.new ≡ fixities.old) }
    ensures reads { Reads (str_bind levels (str_level levels) fixities.old name) lexemes.old.rest.now
        result lexemes.new.rest.now }
{
    let seal = maybe_seal(alloc, lexemes, levels)?;
    let (seal, ()) = both(seal, lexemes.expect(Word::Equals))?;
    let body = str_exp(alloc, lexemes, fixities, levels);
    let (seal, body) = both(seal, body)?;
    let Joined { made, joined } = body;
    let Tall { tree, height } = made;
    Ok(Joined {
        made: Tall {
            tree: FullStrBind {
                name,
                seal: seal.tree,
                body: tree,
            },
            height: seal.height.max(height),
        },
        joined,
    })
}
