//! `where type`, around a signature expression.

ghost use Rattle.std.specs.Prelude.{◌≡◌, ◌-◌, IfOk};
ghost use Rattle.phrase_reading.specs.Reads.{Reads};
ghost use Rattle.core_types.specs.Types.{ty};
ghost use Rattle.signature_parser.specs.Signatures.{where_of, where_behind, wheres};
ghost use Rattle.signature_parser.specs.Joined.{joined_over};
ghost use Rattle.sml_trees.specs.declared.full_sig.FullSigExp.TheVariants.{Where};

use crate::joined::Joined;
use crate::where_types::where_types;
use cm_base::{List, NoMemory};
use phrase_reading::lexemes::Lexemes;
use phrase_reading::stop::Stop;
use phrase_reading::tall::{Tall, boxed_first, one_above};
use sml_lexer::Word;
use sml_trees::held::both;
use sml_trees::{At, FullSigExp, FullWhere};
use std::alloc::Global;

/// A signature with these types behind `where`.
fn with_types(
    alloc: Global,
    place: At,
    left: Tall<FullSigExp>,
    types: Joined<List<FullWhere>>,
) -> Result<Joined<FullSigExp>, NoMemory>
    ensures { IfOk result (λ made. made ≡ joined_over (λ sig types. Where sig types place) left types) }
{
    let Joined { made, joined } = types;
    let (left, types) = boxed_first(alloc, left, made)?;
    let height = left.height.max(types.height);
    let made = one_above(FullSigExp::Where(left.tree, types.tree, place), height)?;
    Ok(Joined { made, joined })
}

/// A signature with the types behind `where`, which may have so many levels.
#[tactic(auto, unfolding(crate::specs::Signatures::where_of))]
fn where_of(
    alloc: Global,
    lexemes: &mut Lexemes<'_>,
    levels: u32,
    place: At,
    left: Tall<FullSigExp>,
) -> Result<Joined<FullSigExp>, Stop>
    ensures { Reads (where_of (ty levels) place left) lexemes.old.rest.now result lexemes.new.rest.now }
{
    let types = where_types(alloc, lexemes, levels);
    let (left, types) = both(left, types)?;
    Ok(with_types(alloc, place, left, types)?)
}

/// Behind `where`: what stands before it becomes a part of a signature with so many levels.
#[tactic(auto, using(crate::proofs::SigSteps::lower_steps), unfolding(crate::specs::Signatures::where_behind))]
pub fn where_behind(
    alloc: Global,
    lexemes: &mut Lexemes<'_>,
    levels: u32,
    place: At,
    left: Tall<FullSigExp>,
) -> Result<Joined<FullSigExp>, Stop>
    ensures { Reads (where_behind levels (ty (levels - 1)) place left) lexemes.old.rest.now result lexemes.new.rest.now }
{
    if left.height >= levels {
        return Err(Stop::TooDeep);
    }
    where_of(alloc, lexemes, levels - 1, place, left)
}

/// None, one or more `where`, around what stands before them.
#[tactic(auto, using(crate::proofs::SigSteps::wheres_steps))]
pub fn wheres(
    alloc: Global,
    lexemes: &mut Lexemes<'_>,
    levels: u32,
    place: At,
    left: Joined<FullSigExp>,
) -> Result<Joined<FullSigExp>, Stop>
    ensures { Reads (wheres levels (ty (levels - 1)) place left) lexemes.old.rest.now
        result lexemes.new.rest.now }
{
    let mut left = left;
    while !left.joined && lexemes.sees(Word::Where) {
        lexemes.take();
        left = where_behind(alloc, lexemes, levels, place, left.made)?;
    }
    Ok(left)
}
