//! The types behind `where`.

ghost use Rattle.std.specs.Prelude.{◌≡◌};
ghost use Rattle.phrase_reading.specs.Reads.{Reads};
ghost use Rattle.core_types.specs.Types.{ty};
ghost use Rattle.signature_parser.specs.Signatures.{where_bind, where_type, one_type, and_type, where_types_from, where_types};

use crate::joined::{Joined, apart};
use cm_base::List;
use core_types::types::ty;
use phrase_reading::binders::{marked, tyvars};
use phrase_reading::lexeme;
use phrase_reading::lexemes::Lexemes;
use phrase_reading::stop::Stop;
use phrase_reading::tall::{Tall, more, one};
use sml_lexer::{Lexeme, Word};
use sml_trees::FullWhere;
use std::alloc::Global;

/// `tyvars longtycon = ty`, behind this `type`.
#[tactic(auto, unfolding(crate::specs::Signatures::where_bind))]
fn where_bind(
    alloc: Global,
    lexemes: &mut Lexemes<'_>,
    levels: u32,
    first: &Lexeme,
) -> Result<Tall<FullWhere>, Stop>
    ensures { Reads (where_bind (ty levels) first.now) lexemes.old.rest.now result lexemes.new.rest.now }
{
    let tyvars = tyvars(alloc, lexemes)?;
    let long = lexemes.tycon()?;
    lexemes.expect(Word::Equals)?;
    let inner = ty(alloc, lexemes, levels)?;
    Ok(Tall {
        tree: FullWhere {
            tyvars,
            long,
            ty: inner.tree,
            at: lexeme::at(first),
        },
        height: inner.height,
    })
}

/// `type tyvars longtycon = ty`
#[tactic(auto, using(crate::proofs::SigSteps::where_type_steps))]
fn where_type(
    alloc: Global,
    lexemes: &mut Lexemes<'_>,
    levels: u32,
) -> Result<Tall<FullWhere>, Stop>
    ensures { Reads (where_type (ty levels)) lexemes.old.rest.now result lexemes.new.rest.now }
{
    let Some(first) = marked(lexemes, Word::TypeWord) else {
        return Err(Stop::Refused);
    };
    lexemes.take();
    where_bind(alloc, lexemes, levels, first)
}

/// One more type, behind this `type`.
#[tactic(auto, unfolding(crate::specs::Signatures::one_type))]
fn one_type(
    alloc: Global,
    lexemes: &mut Lexemes<'_>,
    levels: u32,
    found: Tall<List<FullWhere>>,
    first: &Lexeme,
) -> Result<Joined<List<FullWhere>>, Stop>
    ensures { Reads (one_type (ty levels) found first.now) lexemes.old.rest.now result lexemes.new.rest.now }
{
    let next = where_bind(alloc, lexemes, levels, first)?;
    Ok(apart(more(found, next)?))
}

/// Behind an `and`: one more type, or else the `and` is that of the phrase around.
#[tactic(auto, using(crate::proofs::SigSteps::and_type_steps))]
fn and_type(
    alloc: Global,
    lexemes: &mut Lexemes<'_>,
    levels: u32,
    found: Tall<List<FullWhere>>,
) -> Result<Joined<List<FullWhere>>, Stop>
    ensures { Reads (and_type (ty levels) found) lexemes.old.rest.now result lexemes.new.rest.now }
{
    let Some(first) = marked(lexemes, Word::TypeWord) else {
        return Ok(Joined {
            made: found,
            joined: true,
        });
    };
    lexemes.take();
    one_type(alloc, lexemes, levels, found, first)
}

/// Further types, each behind an `and`.
#[tactic(auto, using(crate::proofs::SigSteps::where_types_steps))]
fn where_types_from(
    alloc: Global,
    lexemes: &mut Lexemes<'_>,
    levels: u32,
    found: Joined<List<FullWhere>>,
) -> Result<Joined<List<FullWhere>>, Stop>
    ensures { Reads (where_types_from (ty levels) found) lexemes.old.rest.now result lexemes.new.rest.now }
{
    let mut found = found;
    while !found.joined && lexemes.sees(Word::And) {
        lexemes.take();
        found = and_type(alloc, lexemes, levels, found.made)?;
    }
    Ok(found)
}

/// The types behind `where`, one or more.
#[tactic(auto, unfolding(crate::specs::Signatures::where_types))]
pub fn where_types(
    alloc: Global,
    lexemes: &mut Lexemes<'_>,
    levels: u32,
) -> Result<Joined<List<FullWhere>>, Stop>
    ensures { Reads (where_types (ty levels)) lexemes.old.rest.now result lexemes.new.rest.now }
{
    let first = where_type(alloc, lexemes, levels)?;
    where_types_from(alloc, lexemes, levels, apart(one(alloc, first)?))
}
