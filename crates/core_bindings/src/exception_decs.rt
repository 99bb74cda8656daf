//! Declarations of exceptions.

ghost use Rattle.std.specs.Prelude.{◌≡◌};
ghost use Rattle.phrase_reading.specs.Sized.{further};
ghost use Rattle.core_types.specs.Types.{ty};
ghost use Rattle.phrase_reading.specs.Reads.{Reads};
ghost use Rattle.core_bindings.specs.Bindings.{ex_body, ex_bind, exception_dec};

use cm_base::List;
use core_types::types::ty;
use phrase_reading::binders::{op_long, op_name};
use phrase_reading::lexemes::Lexemes;
use phrase_reading::stop::Stop;
use phrase_reading::tall::{Tall, more, one, one_above};
use sml_lexer::Word;
use sml_trees::{At, FullDec, FullExBind, FullExBody};
use std::alloc::Global;

/// What stands behind the name of an exception.
#[tactic(auto, using(phrase_reading::proofs::NameSteps::mark_steps), unfolding(crate::specs::Bindings::ex_body))]
fn ex_body(alloc: Global, lexemes: &mut Lexemes<'_>, levels: u32) -> Result<Tall<FullExBody>, Stop>
    ensures { Reads (ex_body (ty levels)) lexemes.old.rest.now result lexemes.new.rest.now }
{
    if lexemes.sees(Word::Of) {
        lexemes.take();
        let inner = ty(alloc, lexemes, levels)?;
        return Ok(Tall {
            tree: FullExBody::Of(inner.tree),
            height: inner.height,
        });
    }
    if lexemes.sees(Word::Equals) {
        lexemes.take();
        let original = op_long(lexemes)?;
        return Ok(Tall {
            tree: FullExBody::Copy(original),
            height: 0,
        });
    }
    Ok(Tall {
        tree: FullExBody::Plain,
        height: 0,
    })
}

/// An exception.
#[tactic(auto, unfolding(crate::specs::Bindings::ex_bind))]
fn ex_bind(alloc: Global, lexemes: &mut Lexemes<'_>, levels: u32) -> Result<Tall<FullExBind>, Stop>
    ensures { Reads (ex_bind (ty levels)) lexemes.old.rest.now result lexemes.new.rest.now }
{
    let name = op_name(lexemes)?;
    let body = ex_body(alloc, lexemes, levels)?;
    Ok(Tall {
        tree: FullExBind {
            name,
            body: body.tree,
        },
        height: body.height,
    })
}

/// Further exceptions, each behind an `and`.
#[tactic(auto, using(phrase_reading::proofs::Steps::further_steps))]
fn ex_binds(
    alloc: Global,
    lexemes: &mut Lexemes<'_>,
    levels: u32,
    found: Tall<List<FullExBind>>,
) -> Result<Tall<List<FullExBind>>, Stop>
    ensures { Reads (further Word.And (ex_bind (ty levels)) found) lexemes.old.rest.now
        result lexemes.new.rest.now }
{
    let mut found = found;
    while lexemes.sees(Word::And) {
        lexemes.take();
        let next = ex_bind(alloc, lexemes, levels)?;
        found = more(found, next)?;
    }
    Ok(found)
}

/// `exception exbind and ..`
#[tactic(auto, unfolding(crate::specs::Bindings::exception_dec))]
pub fn exception_dec(
    alloc: Global,
    lexemes: &mut Lexemes<'_>,
    levels: u32,
    place: At,
) -> Result<Tall<FullDec>, Stop>
    ensures { Reads (exception_dec (ty levels) place) lexemes.old.rest.now result lexemes.new.rest.now }
{
    let first = ex_bind(alloc, lexemes, levels)?;
    let binds = ex_binds(alloc, lexemes, levels, one(alloc, first)?)?;
    Ok(one_above(FullDec::Exceptions(binds.tree, place), binds.height)?)
}
