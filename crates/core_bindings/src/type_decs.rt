//! Declarations of types, datatypes and exceptions.

ghost use Rattle.std.specs.Prelude.{◌≡◌, ◌+◌, ◌∷◌, []};
ghost use Rattle.phrase_reading.specs.Sized.{further, maybe};
ghost use Rattle.core_types.specs.Types.{ty};
ghost use Rattle.phrase_reading.specs.Reads.{Reads};
ghost use Rattle.core_bindings.specs.Bindings.{typ_bind, type_dec};
ghost use Rattle.phrase_reading.specs.Names.{tyvars, short_tycon};

use cm_base::List;
use core_types::types::ty;
use phrase_reading::binders::{short_tycon, tyvars};
use phrase_reading::lexemes::Lexemes;
use phrase_reading::stop::Stop;
use phrase_reading::tall::{Tall, more, one, one_above};
use sml_lexer::Word;
use sml_trees::{At, FullDec, FullTy, FullTypBind};
use std::alloc::Global;

/// A type behind this mark, or nothing.
#[tactic(auto, using(phrase_reading::proofs::NameSteps::maybe_steps))]
pub fn of_ty(
    alloc: Global,
    lexemes: &mut Lexemes<'_>,
    mark: Word,
    levels: u32,
) -> Result<Tall<Option<FullTy>>, Stop>
    ensures { Reads (maybe mark (ty levels)) lexemes.old.rest.now result lexemes.new.rest.now }
{
    if lexemes.sees(mark) {
        lexemes.take();
        let inner = ty(alloc, lexemes, levels)?;
        return Ok(Tall {
            tree: Some(inner.tree),
            height: inner.height,
        });
    }
    Ok(Tall {
        tree: None,
        height: 0,
    })
}

/// `tyvars tycon = ty`
#[tactic(auto, unfolding(crate::specs::Bindings::typ_bind))]
fn typ_bind(
    alloc: Global,
    lexemes: &mut Lexemes<'_>,
    levels: u32,
) -> Result<Tall<FullTypBind>, Stop>
    ensures { Reads (typ_bind (ty levels)) lexemes.old.rest.now result lexemes.new.rest.now }
{
    let tyvars = tyvars(alloc, lexemes)?;
    let name = short_tycon(lexemes)?;
    lexemes.expect(Word::Equals)?;
    let inner = ty(alloc, lexemes, levels)?;
    Ok(Tall {
        tree: FullTypBind {
            tyvars,
            name,
            ty: inner.tree,
        },
        height: inner.height,
    })
}

/// Further bindings of types, each behind an `and`.
#[tactic(auto, using(phrase_reading::proofs::Steps::further_steps))]
fn typ_binds(
    alloc: Global,
    lexemes: &mut Lexemes<'_>,
    levels: u32,
    found: Tall<List<FullTypBind>>,
) -> Result<Tall<List<FullTypBind>>, Stop>
    ensures { Reads (further Word.And (typ_bind (ty levels)) found) lexemes.old.rest.now
        result lexemes.new.rest.now }
{
    let mut found = found;
    while lexemes.sees(Word::And) {
        lexemes.take();
        let next = typ_bind(alloc, lexemes, levels)?;
        found = more(found, next)?;
    }
    Ok(found)
}

/// `type typbind and ..`
#[tactic(auto, unfolding(crate::specs::Bindings::type_dec))]
pub fn type_dec(
    alloc: Global,
    lexemes: &mut Lexemes<'_>,
    levels: u32,
    place: At,
) -> Result<Tall<FullDec>, Stop>
    ensures { Reads (type_dec (ty levels) place) lexemes.old.rest.now result lexemes.new.rest.now }
{
    let bind = typ_bind(alloc, lexemes, levels)?;
    let binds = typ_binds(alloc, lexemes, levels, one(alloc, bind)?)?;
    Ok(one_above(FullDec::Types(binds.tree, place), binds.height)?)
}
