//! Signature expressions and the specifications in them, read by recursive descent.

ghost use Rattle.std.specs.Prelude.{◌≡◌, ◌-◌, ◌<◌, None, Some, true, false, drop, MatchResult};
ghost use Rattle.grammars.specs.Grammar.{begins, head_or};
ghost use Rattle.phrase_reading.specs.Reads.{Reads};
ghost use Rattle.phrase_reading.specs.Words.{is, at, word, made};
ghost use Rattle.signature_parser.specs.Joined.{module_name_of, bindings, bindings_from};
ghost use Rattle.signature_parser.specs.SigLevels.{sig_level, sig_below};
ghost use Rattle.signature_parser.specs.Signatures.{starts_sig, sig_name, sig_body, sig_atom, sig_within, sig_bind};
ghost use Rattle.signature_parser.specs.Specifications.{structure_spec, include_sig, include_spec, spec_word, spec_of, spec_round, specs_from};

use crate::descs::{datatype_spec, eqtype_spec, exception_spec, type_spec, val_spec};
use crate::includes::include_from;
use crate::joined::{Joined, alone, apart, joined_more, joined_one, next_name};
use crate::names::{is_module_name, module_name, module_name_of, sees_module_name};
use crate::rounds::next_spec;
use crate::wheres::wheres;
use cm_base::List;
use phrase_reading::lexeme;
use phrase_reading::lexemes::Lexemes;
use phrase_reading::stop::Stop;
use phrase_reading::tall::{Tall, boxed, more, one_above};
use sml_lexer::{Lexeme, Word};
use sml_trees::{At, FullSigBind, FullSigExp, FullSpec, Name};
use std::alloc::Global;

/// Whether a signature expression begins with the lexeme.
fn starts_sig(lexeme: &Lexeme) -> bool
    ensures { result ≡ starts_sig lexeme.now }
{
    lexeme::is(Word::Sig, lexeme) || is_module_name(lexeme)
}

/// Takes the lexeme that a signature expression begins with.
fn begin<'a>(lexemes: &mut Lexemes<'a>) -> Result<&'a Lexeme, Stop>
    ensures { MatchResult result
        (λ first. (head_or lexemes.old.rest.now None ≡ Some first.now) × (starts_sig first.now ≡ true)
        × (lexemes.new.rest.now ≡ drop 1 lexemes.old.rest.now))
        (λ stop. (stop ≡ Stop.Refused) × (begins starts_sig (head_or lexemes.old.rest.now None) ≡ false)
        × (lexemes.new.rest.now ≡ lexemes.old.rest.now)) }
{
    let Some(first) = lexemes.peek() else {
        return Err(Stop::Refused);
    };
    if !starts_sig(first) {
        return Err(Stop::Refused);
    }
    lexemes.take();
    Ok(first)
}

/// A signature expression of at most so many levels.
#[cycle(sigs)]
#[tactic(auto, using(crate::proofs::SigSteps::sig_steps))]
pub fn sig(
    alloc: Global,
    lexemes: &mut Lexemes<'_>,
    levels: u32,
) -> Result<Joined<FullSigExp>, Stop>
    ensures { Reads (sig_level levels).sig lexemes.old.rest.now result lexemes.new.rest.now }
{
    let first = begin(lexemes)?;
    if levels == 0 {
        return Err(Stop::TooDeep);
    }
    sig_within(alloc, lexemes, levels, first)
}

/// A signature expression behind its first lexeme.
#[cycle(sigs)]
#[tactic(auto, unfolding(crate::specs::Signatures::sig_within))]
fn sig_within(
    alloc: Global,
    lexemes: &mut Lexemes<'_>,
    levels: u32,
    first: &Lexeme,
) -> Result<Joined<FullSigExp>, Stop>
    requires { 0 < levels }
    ensures { Reads (sig_within levels (sig_level (levels - 1)) first.now) lexemes.old.rest.now
        result lexemes.new.rest.now }
{
    let atom = sig_atom(alloc, lexemes, levels - 1, first)?;
    wheres(alloc, lexemes, levels, lexeme::at(first), apart(atom))
}

/// A name that is a signature, where a lexeme is one.
fn sig_name(lexemes: &Lexemes<'_>, first: &Lexeme) -> Result<Tall<FullSigExp>, Stop>
    ensures { Reads (made (sig_name first.now) (module_name_of first.now)) lexemes.now.rest.now result
        lexemes.now.rest.now }
{
    let Some(text) = module_name_of(first)? else {
        return Err(Stop::Refused);
    };
    let name = Name {
        text,
        line: first.line,
        col: first.col,
    };
    Ok(Tall {
        tree: FullSigExp::Named(name, lexeme::at(first)),
        height: 1,
    })
}

/// A signature expression without `where`, behind its first lexeme.
#[cycle(sigs)]
fn sig_atom(
    alloc: Global,
    lexemes: &mut Lexemes<'_>,
    levels: u32,
    first: &Lexeme,
) -> Result<Tall<FullSigExp>, Stop>
    ensures { Reads (sig_atom (sig_level levels) first.now) lexemes.old.rest.now result lexemes.new.rest.now }
{
    if lexeme::is(Word::Sig, first) {
        return sig_body(alloc, lexemes, levels, lexeme::at(first));
    }
    sig_name(lexemes, first)
}

/// `sig spec end`, behind `sig`.
#[cycle(sigs)]
#[tactic(auto, unfolding(crate::specs::Signatures::sig_body))]
fn sig_body(
    alloc: Global,
    lexemes: &mut Lexemes<'_>,
    levels: u32,
    place: At,
) -> Result<Tall<FullSigExp>, Stop>
    ensures { Reads (sig_body (sig_level levels) place) lexemes.old.rest.now result lexemes.new.rest.now }
{
    let specs = specs(alloc, lexemes, levels)?;
    lexemes.expect(Word::End)?;
    Ok(one_above(FullSigExp::Sig(specs.tree, place), specs.height)?)
}

/// The signature that is bound to a name, behind the name.
#[cycle(sigs)]
#[tactic(auto, unfolding(crate::specs::Signatures::sig_bind))]
fn sig_bind(
    alloc: Global,
    lexemes: &mut Lexemes<'_>,
    levels: u32,
    mark: Word,
    name: Name,
) -> Result<Joined<FullSigBind>, Stop>
    ensures { Reads (sig_bind (sig_level levels).sig mark name) lexemes.old.rest.now
        result lexemes.new.rest.now }
{
    lexemes.expect(mark)?;
    let Joined { made, joined } = sig(alloc, lexemes, levels)?;
    let Tall { tree, height } = made;
    Ok(Joined {
        made: Tall {
            tree: FullSigBind { name, sig: tree },
            height,
        },
        joined,
    })
}

/// Further names with their signatures, each behind its `and`.
#[cycle(sigs)]
#[tactic(auto, using(crate::proofs::BoundSteps::bindings_steps))]
fn sig_binds_from(
    alloc: Global,
    lexemes: &mut Lexemes<'_>,
    levels: u32,
    mark: Word,
    found: Joined<List<FullSigBind>>,
) -> Result<Joined<List<FullSigBind>>, Stop>
    ensures { Reads (bindings_from (sig_bind (sig_level levels).sig mark) found) lexemes.old.rest.now
        result lexemes.new.rest.now }
{
    let mut found = found;
    while let Some(name) = next_name(lexemes, found.joined)? {
        let next = sig_bind(alloc, lexemes, levels, mark, name)?;
        found = joined_more(found, next)?;
    }
    Ok(found)
}

/// Names with their signatures, each behind this mark.
#[cycle(sigs)]
#[tactic(auto, unfolding(crate::specs::Joined::bindings))]
pub fn sig_binds(
    alloc: Global,
    lexemes: &mut Lexemes<'_>,
    levels: u32,
    mark: Word,
) -> Result<Tall<List<FullSigBind>>, Stop>
    ensures { Reads (bindings (sig_bind (sig_level levels).sig mark)) lexemes.old.rest.now
        result lexemes.new.rest.now }
{
    let name = module_name(lexemes)?;
    let first = sig_bind(alloc, lexemes, levels, mark, name)?;
    let found = joined_one(alloc, first)?;
    let found = sig_binds_from(alloc, lexemes, levels, mark, found)?;
    alone(lexemes, found)
}

/// `structure strid : sigexp and ..`
#[cycle(sigs)]
#[tactic(auto, unfolding(crate::specs::Specifications::structure_spec))]
fn structure_spec(
    alloc: Global,
    lexemes: &mut Lexemes<'_>,
    levels: u32,
    place: At,
) -> Result<Tall<FullSpec>, Stop>
    ensures { Reads (structure_spec (sig_level levels) place) lexemes.old.rest.now result lexemes.new.rest.now }
{
    let found = sig_binds(alloc, lexemes, levels, Word::Colon)?;
    Ok(one_above(FullSpec::Structures(found.tree, place), found.height)?)
}

/// `include sigexp`, where that begins with `sig`.
#[cycle(sigs)]
#[tactic(auto, unfolding(crate::specs::Specifications::include_sig, crate::specs::Joined::alone))]
fn include_sig(
    alloc: Global,
    lexemes: &mut Lexemes<'_>,
    levels: u32,
    place: At,
) -> Result<Tall<FullSpec>, Stop>
    ensures { Reads (include_sig (sig_level levels) place) lexemes.old.rest.now result lexemes.new.rest.now }
{
    let whole = sig(alloc, lexemes, levels)?;
    let found = alone(lexemes, whole)?;
    let found = boxed(alloc, found)?;
    Ok(one_above(FullSpec::Include(found.tree, place), found.height)?)
}

/// `include sigid sigid ..` and `include sigexp`
#[cycle(sigs)]
#[tactic(auto, using(phrase_reading::proofs::NameSteps::if_taken_steps), unfolding(crate::specs::Specifications::include_spec))]
fn include_spec(
    alloc: Global,
    lexemes: &mut Lexemes<'_>,
    levels: u32,
    place: At,
) -> Result<Tall<FullSpec>, Stop>
    ensures { Reads (include_spec levels (sig_level levels) place) lexemes.old.rest.now
        result lexemes.new.rest.now }
{
    if sees_module_name(lexemes) {
        let name = module_name(lexemes)?;
        return include_from(alloc, lexemes, levels, place, name);
    }
    include_sig(alloc, lexemes, levels, place)
}

/// A specification behind its first word, over parts of so many levels.
#[cycle(sigs)]
fn spec_word(
    alloc: Global,
    lexemes: &mut Lexemes<'_>,
    levels: u32,
    place: At,
    word: Option<Word>,
) -> Result<Tall<FullSpec>, Stop>
    ensures { Reads (spec_word levels (sig_level levels) place word) lexemes.old.rest.now
        result lexemes.new.rest.now }
{
    match word {
        Some(Word::Val) => val_spec(alloc, lexemes, levels, place),
        Some(Word::TypeWord) => type_spec(alloc, lexemes, levels, place),
        Some(Word::EqType) => eqtype_spec(alloc, lexemes, place),
        Some(Word::Datatype) => datatype_spec(alloc, lexemes, levels, place),
        Some(Word::Exception) => exception_spec(alloc, lexemes, levels, place),
        Some(Word::Structure) => structure_spec(alloc, lexemes, levels, place),
        Some(Word::Include) => include_spec(alloc, lexemes, levels, place),
        _ => Err(Stop::Refused),
    }
}

/// A specification behind its first word.
#[cycle(sigs)]
#[tactic(auto, using(crate::proofs::SigSteps::spec_steps))]
fn spec(
    alloc: Global,
    lexemes: &mut Lexemes<'_>,
    levels: u32,
    first: &Lexeme,
) -> Result<Tall<FullSpec>, Stop>
    ensures { Reads (spec_of levels (sig_below levels) first.now) lexemes.old.rest.now
        result lexemes.new.rest.now }
{
    if levels == 0 {
        return Err(Stop::TooDeep);
    }
    spec_word(
        alloc,
        lexemes,
        levels - 1,
        lexeme::at(first),
        lexeme::word(first),
    )
}

/// One more specification behind its first word, or nothing behind a semicolon.
#[cycle(sigs)]
#[tactic(auto, unfolding(crate::specs::Specifications::next_spec))]
fn spec_round(
    alloc: Global,
    lexemes: &mut Lexemes<'_>,
    levels: u32,
    found: Tall<List<FullSpec>>,
    first: &Lexeme,
) -> Result<Tall<List<FullSpec>>, Stop>
    ensures { Reads (spec_round levels (sig_below levels) found first.now) lexemes.old.rest.now
        result lexemes.new.rest.now }
{
    if lexeme::is(Word::Semicolon, first) {
        return Ok(found);
    }
    let next = spec(alloc, lexemes, levels, first)?;
    Ok(more(found, next)?)
}

/// Further specifications and semicolons.
#[cycle(sigs)]
#[tactic(auto, using(crate::proofs::SigSteps::specs_steps))]
fn specs_from(
    alloc: Global,
    lexemes: &mut Lexemes<'_>,
    levels: u32,
    found: Tall<List<FullSpec>>,
) -> Result<Tall<List<FullSpec>>, Stop>
    ensures { Reads (specs_from levels (sig_below levels) found) lexemes.old.rest.now
        result lexemes.new.rest.now }
{
    let mut found = found;
    while let Some(first) = next_spec(lexemes) {
        lexemes.take();
        found = spec_round(alloc, lexemes, levels, found, first)?;
    }
    Ok(found)
}

/// Specifications and semicolons, none or more.
#[cycle(sigs)]
pub fn specs(
    alloc: Global,
    lexemes: &mut Lexemes<'_>,
    levels: u32,
) -> Result<Tall<List<FullSpec>>, Stop>
    ensures { Reads (sig_level levels).specs lexemes.old.rest.now result lexemes.new.rest.now }
{
    let none = Tall {
        tree: List::new(alloc),
        height: 0,
    };
    specs_from(alloc, lexemes, levels, none)
}
