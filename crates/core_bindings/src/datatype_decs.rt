//! Declarations of datatypes.

ghost use Rattle.std.specs.Prelude.{◌≡◌};
ghost use Rattle.phrase_reading.specs.Sized.{further};
ghost use Rattle.core_types.specs.Types.{ty};
ghost use Rattle.phrase_reading.specs.Reads.{Reads};
ghost use Rattle.core_bindings.specs.Bindings.{con_bind, dat_bind_of, dat_bind, datatypes, replication, has_none, datatype_from, datatype_dec};

use crate::type_decs::of_ty;
use cm_base::List;
use core_types::types::ty;
use phrase_reading::binders::{op_name, short_tycon, tyvars};
use phrase_reading::lexemes::Lexemes;
use phrase_reading::stop::Stop;
use phrase_reading::tall::{Tall, more, one, one_above};
use sml_lexer::Word;
use sml_trees::{At, FullConBind, FullDatBind, FullDec, Name};
use std::alloc::Global;

/// A constructor.
#[tactic(auto, unfolding(crate::specs::Bindings::con_bind))]
fn con_bind(
    alloc: Global,
    lexemes: &mut Lexemes<'_>,
    levels: u32,
) -> Result<Tall<FullConBind>, Stop>
    ensures { Reads (con_bind (ty levels)) lexemes.old.rest.now result lexemes.new.rest.now }
{
    let name = op_name(lexemes)?;
    let arg = of_ty(alloc, lexemes, Word::Of, levels)?;
    Ok(Tall {
        tree: FullConBind {
            name,
            arg: arg.tree,
        },
        height: arg.height,
    })
}

/// Further constructors, each behind a `|`.
#[tactic(auto, using(phrase_reading::proofs::Steps::further_steps))]
fn con_binds(
    alloc: Global,
    lexemes: &mut Lexemes<'_>,
    levels: u32,
    found: Tall<List<FullConBind>>,
) -> Result<Tall<List<FullConBind>>, Stop>
    ensures { Reads (further Word.Bar (con_bind (ty levels)) found) lexemes.old.rest.now
        result lexemes.new.rest.now }
{
    let mut found = found;
    while lexemes.sees(Word::Bar) {
        lexemes.take();
        let next = con_bind(alloc, lexemes, levels)?;
        found = more(found, next)?;
    }
    Ok(found)
}

/// A datatype behind its `=`.
#[tactic(auto, unfolding(crate::specs::Bindings::dat_bind_of))]
fn dat_bind_of(
    alloc: Global,
    lexemes: &mut Lexemes<'_>,
    levels: u32,
    tyvars: List<Name>,
    name: Name,
) -> Result<Tall<FullDatBind>, Stop>
    ensures { Reads (dat_bind_of (ty levels) tyvars name) lexemes.old.rest.now result lexemes.new.rest.now }
{
    let first = con_bind(alloc, lexemes, levels)?;
    let cons = con_binds(alloc, lexemes, levels, one(alloc, first)?)?;
    Ok(Tall {
        tree: FullDatBind {
            tyvars,
            name,
            cons: cons.tree,
        },
        height: cons.height,
    })
}

/// `tyvars tycon = conbind | ..`
#[tactic(auto, unfolding(crate::specs::Bindings::dat_bind))]
fn dat_bind(
    alloc: Global,
    lexemes: &mut Lexemes<'_>,
    levels: u32,
) -> Result<Tall<FullDatBind>, Stop>
    ensures { Reads (dat_bind (ty levels)) lexemes.old.rest.now result lexemes.new.rest.now }
{
    let tyvars = tyvars(alloc, lexemes)?;
    let name = short_tycon(lexemes)?;
    lexemes.expect(Word::Equals)?;
    dat_bind_of(alloc, lexemes, levels, tyvars, name)
}

/// Further datatypes, each behind an `and`.
#[tactic(auto, using(phrase_reading::proofs::Steps::further_steps))]
fn dat_binds(
    alloc: Global,
    lexemes: &mut Lexemes<'_>,
    levels: u32,
    found: Tall<List<FullDatBind>>,
) -> Result<Tall<List<FullDatBind>>, Stop>
    ensures { Reads (further Word.And (dat_bind (ty levels)) found) lexemes.old.rest.now
        result lexemes.new.rest.now }
{
    let mut found = found;
    while lexemes.sees(Word::And) {
        lexemes.take();
        let next = dat_bind(alloc, lexemes, levels)?;
        found = more(found, next)?;
    }
    Ok(found)
}

/// Datatypes, behind the first `=`.
#[tactic(auto, unfolding(crate::specs::Bindings::datatypes))]
fn datatypes(
    alloc: Global,
    lexemes: &mut Lexemes<'_>,
    levels: u32,
    place: At,
    tyvars: List<Name>,
    name: Name,
) -> Result<Tall<FullDec>, Stop>
    ensures { Reads (datatypes (ty levels) place tyvars name) lexemes.old.rest.now result lexemes.new.rest.now }
{
    let first = dat_bind_of(alloc, lexemes, levels, tyvars, name)?;
    let binds = dat_binds(alloc, lexemes, levels, one(alloc, first)?)?;
    Ok(one_above(FullDec::Datatypes(binds.tree, place), binds.height)?)
}

/// A datatype that is another one, behind the second `datatype`.
#[tactic(auto, unfolding(crate::specs::Bindings::replication))]
fn replication(lexemes: &mut Lexemes<'_>, place: At, name: Name) -> Result<Tall<FullDec>, Stop>
    ensures { Reads (replication place name) lexemes.old.rest.now result lexemes.new.rest.now }
{
    let original = lexemes.tycon()?;
    Ok(Tall {
        tree: FullDec::Replication(name, original, place),
        height: 1,
    })
}

/// Whether a list has no item.
pub fn has_none(names: &List<Name>) -> bool
    ensures { result ≡ has_none names.now }
{
    match names.as_slice() {
        [] => true,
        [_, ..] => false,
    }
}

/// What stands behind the first `=`. Without type variables it may be a replication.
#[tactic(auto, using(phrase_reading::proofs::NameSteps::mark_steps), unfolding(crate::specs::Bindings::datatype_from))]
fn datatype_from(
    alloc: Global,
    lexemes: &mut Lexemes<'_>,
    levels: u32,
    place: At,
    tyvars: List<Name>,
    name: Name,
) -> Result<Tall<FullDec>, Stop>
    ensures { Reads (datatype_from (ty levels) place tyvars name) lexemes.old.rest.now
        result lexemes.new.rest.now }
{
    if has_none(&tyvars) {
        if lexemes.sees(Word::Datatype) {
            lexemes.take();
            return replication(lexemes, place, name);
        }
        return datatypes(alloc, lexemes, levels, place, tyvars, name);
    }
    datatypes(alloc, lexemes, levels, place, tyvars, name)
}

/// `datatype datbind and ..`, and `datatype tycon = datatype longtycon`
#[tactic(auto, unfolding(crate::specs::Bindings::datatype_dec))]
pub fn datatype_dec(
    alloc: Global,
    lexemes: &mut Lexemes<'_>,
    levels: u32,
    place: At,
) -> Result<Tall<FullDec>, Stop>
    ensures { Reads (datatype_dec (ty levels) place) lexemes.old.rest.now result lexemes.new.rest.now }
{
    let tyvars = tyvars(alloc, lexemes)?;
    let name = short_tycon(lexemes)?;
    lexemes.expect(Word::Equals)?;
    datatype_from(alloc, lexemes, levels, place, tyvars, name)
}
