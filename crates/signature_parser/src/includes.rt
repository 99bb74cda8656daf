//! `include` with names of signatures.

ghost use Rattle.std.specs.Prelude.{◌≡◌, ◌∷◌, [], IfOk};
ghost use Rattle.phrase_reading.specs.Words.{named};
ghost use Rattle.phrase_reading.specs.Reads.{Reads};
ghost use Rattle.signature_parser.specs.Specifications.{include_names, include_where, include_one, include_from};

use crate::joined::{Joined, alone};
use crate::names::{module_name, module_names_from, sees_module_name};
use crate::wheres::{where_behind, wheres};
use cm_base::{List, NoMemory};
use phrase_reading::binders::single;
use phrase_reading::lexemes::Lexemes;
use phrase_reading::stop::Stop;
use phrase_reading::tall::{Tall, boxed, one_above};
use sml_lexer::Word;
use sml_trees::{At, FullSigExp, FullSpec, Name};
use std::alloc::Global;

/// `include sigid sigid ..`, behind the second one.
#[tactic(auto, unfolding(crate::specs::Specifications::include_names))]
fn include_names(
    lexemes: &mut Lexemes<'_>,
    place: At,
    found: List<Name>,
) -> Result<Tall<FullSpec>, Stop>
    ensures { Reads (include_names place found) lexemes.old.rest.now result lexemes.new.rest.now }
{
    let names = module_names_from(lexemes, found)?;
    Ok(Tall {
        tree: FullSpec::IncludeNames(names, place),
        height: 1,
    })
}

/// `include sigid where ..`, behind `where`: what stands in the specification may have so many levels.
#[tactic(auto, unfolding(crate::specs::Specifications::include_where, crate::specs::Joined::alone))]
fn include_where(
    alloc: Global,
    lexemes: &mut Lexemes<'_>,
    levels: u32,
    place: At,
    name: Name,
) -> Result<Tall<FullSpec>, Stop>
    ensures { Reads (include_where levels place name) lexemes.old.rest.now result lexemes.new.rest.now }
{
    let begin = At {
        line: name.line,
        col: name.col,
    };
    let named = Tall {
        tree: FullSigExp::Named(name, begin),
        height: 1,
    };
    let first = where_behind(alloc, lexemes, levels, begin, named)?;
    let whole = wheres(alloc, lexemes, levels, begin, first)?;
    let sig = alone(lexemes, whole)?;
    let sig = boxed(alloc, sig)?;
    Ok(one_above(FullSpec::Include(sig.tree, place), sig.height)?)
}

/// Behind one name: `where`, or nothing.
#[tactic(auto, using(phrase_reading::proofs::NameSteps::mark_steps), unfolding(crate::specs::Specifications::include_one))]
fn include_one(
    alloc: Global,
    lexemes: &mut Lexemes<'_>,
    levels: u32,
    place: At,
    name: Name,
) -> Result<Tall<FullSpec>, Stop>
    ensures { Reads (include_one levels place name) lexemes.old.rest.now result lexemes.new.rest.now }
{
    if lexemes.sees(Word::Where) {
        lexemes.take();
        return include_where(alloc, lexemes, levels, place, name);
    }
    Ok(Tall {
        tree: FullSpec::IncludeNames(single(alloc, name)?, place),
        height: 1,
    })
}

/// Two names.
fn two(alloc: Global, first: Name, second: Name) -> Result<List<Name>, NoMemory>
    ensures { IfOk result (λ names. names ≡ first ∷ second ∷ []) }
{
    let mut names = single(alloc, first)?;
    names.add(second)?;
    Ok(names)
}

/// Behind the first name: another one, `where`, or nothing.
#[tactic(auto, using(phrase_reading::proofs::NameSteps::if_taken_steps), unfolding(crate::specs::Specifications::include_from))]
pub fn include_from(
    alloc: Global,
    lexemes: &mut Lexemes<'_>,
    levels: u32,
    place: At,
    name: Name,
) -> Result<Tall<FullSpec>, Stop>
    ensures { Reads (include_from levels place name) lexemes.old.rest.now result lexemes.new.rest.now }
{
    if sees_module_name(lexemes) {
        let second = module_name(lexemes)?;
        let names = two(alloc, name, second)?;
        return include_names(lexemes, place, names);
    }
    include_one(alloc, lexemes, levels, place, name)
}
