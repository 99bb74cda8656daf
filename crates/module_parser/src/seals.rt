//! The signatures that structures and functors' results are given.

ghost use Rattle.std.specs.Prelude.{◌≡◌, ◌-◌, true, false, None, IfOk};
ghost use Rattle.std.specs.Option.{option_copied};
ghost use Rattle.grammars.specs.Grammar.{head_or};
ghost use Rattle.phrase_reading.specs.Reads.{Reads};
ghost use Rattle.phrase_reading.specs.Words.{is};
ghost use Rattle.signature_parser.specs.SigLevels.{sig_level};
ghost use Rattle.module_parser.specs.Structures.{seal_behind, maybe_seal, is_seal, next_seal, sealed_tree, sealed_of, seal_of, seals};
ghost use Rattle.signature_parser.specs.Joined.{joined_over};

use cm_base::{Boxed, NoMemory};
use phrase_reading::binders::marked;
use phrase_reading::lexeme;
use phrase_reading::lexemes::Lexemes;
use phrase_reading::stop::Stop;
use phrase_reading::tall::{Tall, boxed_first, one_above};
use signature_parser::joined::{Joined, alone};
use signature_parser::sig_exps::sig;
use sml_lexer::{Lexeme, Word};
use sml_trees::held::both;
use sml_trees::{At, FullSeal, FullSigExp, FullStrExp};
use std::alloc::Global;

/// The signature behind this mark.
#[tactic(auto, unfolding(crate::specs::Structures::seal_behind, signature_parser::specs::Joined::alone))]
fn seal_behind(
    alloc: Global,
    lexemes: &mut Lexemes<'_>,
    levels: u32,
    opaque: bool,
    mark: &Lexeme,
) -> Result<Tall<Option<FullSeal>>, Stop>
    ensures { Reads (seal_behind (sig_level levels).sig opaque mark.now) lexemes.old.rest.now
        result lexemes.new.rest.now }
{
    let whole = sig(alloc, lexemes, levels)?;
    let found = alone(lexemes, whole)?;
    Ok(Tall {
        tree: Some(FullSeal {
            opaque,
            sig: found.tree,
            at: lexeme::at(mark),
        }),
        height: found.height,
    })
}

/// `[ : sigexp | :> sigexp ]`, before the `=` of a binding.
#[tactic(auto, using(crate::proofs::StrSteps::maybe_seal_steps))]
pub fn maybe_seal(
    alloc: Global,
    lexemes: &mut Lexemes<'_>,
    levels: u32,
) -> Result<Tall<Option<FullSeal>>, Stop>
    ensures { Reads (maybe_seal (sig_level levels).sig) lexemes.old.rest.now result lexemes.new.rest.now }
{
    if let Some(mark) = marked(lexemes, Word::Colon) {
        lexemes.take();
        return seal_behind(alloc, lexemes, levels, false, mark);
    }
    if let Some(mark) = marked(lexemes, Word::Seal) {
        lexemes.take();
        return seal_behind(alloc, lexemes, levels, true, mark);
    }
    Ok(Tall {
        tree: None,
        height: 0,
    })
}

/// Whether the lexeme is the mark before a signature that a structure is given.
fn is_seal(lexeme: &Lexeme) -> bool
    ensures { result ≡ is_seal lexeme.now }
{
    lexeme::is(Word::Colon, lexeme) || lexeme::is(Word::Seal, lexeme)
}

/// The next lexeme, if it is such a mark and the structure before it may have a signature.
fn next_seal<'a>(lexemes: &Lexemes<'a>, joined: bool) -> Option<&'a Lexeme>
    ensures { option_copied result ≡ next_seal joined (head_or lexemes.now.rest.now None) }
{
    match lexemes.peek() {
        Some(next) if !joined && is_seal(next) => Some(next),
        _ => None,
    }
}

/// A structure with its signature.
fn sealed_tree(opaque: bool, place: At, body: Boxed<FullStrExp>, sig: FullSigExp) -> FullStrExp
    ensures { result ≡ sealed_tree opaque place body sig }
{
    if opaque {
        FullStrExp::Opaque(body, sig, place)
    } else {
        FullStrExp::Transparent(body, sig, place)
    }
}

/// The same, one level above both.
fn sealed(
    alloc: Global,
    opaque: bool,
    place: At,
    body: Tall<FullStrExp>,
    sig: Joined<FullSigExp>,
) -> Result<Joined<FullStrExp>, NoMemory>
    ensures { IfOk result (λ made. made ≡ joined_over (sealed_tree opaque place) body sig) }
{
    let Joined { made, joined } = sig;
    let (body, sig) = boxed_first(alloc, body, made)?;
    let height = body.height.max(sig.height);
    let made = one_above(sealed_tree(opaque, place, body.tree, sig.tree), height)?;
    Ok(Joined { made, joined })
}

/// A structure with the signature behind the mark, which may have so many levels.
#[tactic(auto, unfolding(crate::specs::Structures::sealed_of))]
fn sealed_of(
    alloc: Global,
    lexemes: &mut Lexemes<'_>,
    levels: u32,
    place: At,
    left: Tall<FullStrExp>,
    opaque: bool,
) -> Result<Joined<FullStrExp>, Stop>
    ensures { Reads (sealed_of (sig_level levels).sig place left opaque) lexemes.old.rest.now
        result lexemes.new.rest.now }
{
    let sig = sig(alloc, lexemes, levels);
    let (left, sig) = both(left, sig)?;
    Ok(sealed(alloc, opaque, place, left, sig)?)
}

/// Behind the mark: what stands before it becomes a part of a structure with so many levels.
#[tactic(auto, using(signature_parser::proofs::SigSteps::lower_steps), unfolding(crate::specs::Structures::seal_of))]
fn seal_of(
    alloc: Global,
    lexemes: &mut Lexemes<'_>,
    levels: u32,
    place: At,
    left: Tall<FullStrExp>,
    mark: &Lexeme,
) -> Result<Joined<FullStrExp>, Stop>
    ensures { Reads (seal_of levels (sig_level (levels - 1)).sig place left mark.now) lexemes.old.rest.now
        result lexemes.new.rest.now }
{
    if left.height >= levels {
        return Err(Stop::TooDeep);
    }
    let opaque = lexeme::is(Word::Seal, mark);
    sealed_of(alloc, lexemes, levels - 1, place, left, opaque)
}

/// None, one or more signatures, around what stands before them.
#[tactic(auto, using(crate::proofs::StrSteps::seals_steps))]
pub fn seals(
    alloc: Global,
    lexemes: &mut Lexemes<'_>,
    levels: u32,
    place: At,
    left: Joined<FullStrExp>,
) -> Result<Joined<FullStrExp>, Stop>
    ensures { Reads (seals levels (sig_level (levels - 1)).sig place left) lexemes.old.rest.now
        result lexemes.new.rest.now }
{
    let mut left = left;
    while let Some(mark) = next_seal(lexemes, left.joined) {
        lexemes.take();
        left = seal_of(alloc, lexemes, levels, place, left.made, mark)?;
    }
    Ok(left)
}
