//! Specifications of values, types, datatypes and exceptions.

ghost use Rattle.std.specs.Prelude.{◌≡◌, false};
ghost use Rattle.core_bindings.specs.Bindings.{has_none};
ghost use Rattle.phrase_reading.specs.Names.{name_with};
ghost use Rattle.phrase_reading.specs.Reads.{Reads};
ghost use Rattle.phrase_reading.specs.Sized.{further};
ghost use Rattle.core_types.specs.Types.{ty};
ghost use Rattle.signature_parser.specs.Specifications.{val_desc, val_spec, typ_desc, type_spec, eq_desc, eqtype_spec, con_desc, dat_desc_of, dat_desc, datatype_descs, replication_spec, datatype_from, datatype_spec, exception_spec};

use cm_base::List;
use core_bindings::datatype_decs::has_none;
use core_bindings::type_decs::of_ty;
use core_types::types::ty;
use phrase_reading::binders::{short_tycon, tyvars};
use phrase_reading::lexemes::Lexemes;
use phrase_reading::stop::Stop;
use phrase_reading::tall::{Tall, more, one, one_above};
use sml_lexer::Word;
use sml_trees::{
    At, FullConBind, FullDatBind, FullSpec, FullTypDesc, FullValDesc, Name, OpName, TypDesc,
};
use std::alloc::Global;

/// `vid : ty`
#[tactic(auto, unfolding(crate::specs::Specifications::val_desc))]
fn val_desc(
    alloc: Global,
    lexemes: &mut Lexemes<'_>,
    levels: u32,
) -> Result<Tall<FullValDesc>, Stop>
    ensures { Reads (val_desc (ty levels)) lexemes.old.rest.now result lexemes.new.rest.now }
{
    let name = lexemes.name()?;
    lexemes.expect(Word::Colon)?;
    let inner = ty(alloc, lexemes, levels)?;
    Ok(Tall {
        tree: FullValDesc {
            name,
            ty: inner.tree,
        },
        height: inner.height,
    })
}

/// Further values, each behind an `and`.
#[tactic(auto, using(phrase_reading::proofs::Steps::further_steps))]
fn val_descs(
    alloc: Global,
    lexemes: &mut Lexemes<'_>,
    levels: u32,
    found: Tall<List<FullValDesc>>,
) -> Result<Tall<List<FullValDesc>>, Stop>
    ensures { Reads (further Word.And (val_desc (ty levels)) found) lexemes.old.rest.now
        result lexemes.new.rest.now }
{
    let mut found = found;
    while lexemes.sees(Word::And) {
        lexemes.take();
        let next = val_desc(alloc, lexemes, levels)?;
        found = more(found, next)?;
    }
    Ok(found)
}

/// `val vid : ty and ..`
#[tactic(auto, unfolding(crate::specs::Specifications::val_spec))]
pub fn val_spec(
    alloc: Global,
    lexemes: &mut Lexemes<'_>,
    levels: u32,
    place: At,
) -> Result<Tall<FullSpec>, Stop>
    ensures { Reads (val_spec (ty levels) place) lexemes.old.rest.now result lexemes.new.rest.now }
{
    let first = val_desc(alloc, lexemes, levels)?;
    let found = val_descs(alloc, lexemes, levels, one(alloc, first)?)?;
    Ok(one_above(FullSpec::Vals(found.tree, place), found.height)?)
}

/// `tyvars tycon [ = ty ]`
#[tactic(auto, unfolding(crate::specs::Specifications::typ_desc))]
fn typ_desc(
    alloc: Global,
    lexemes: &mut Lexemes<'_>,
    levels: u32,
) -> Result<Tall<FullTypDesc>, Stop>
    ensures { Reads (typ_desc (ty levels)) lexemes.old.rest.now result lexemes.new.rest.now }
{
    let tyvars = tyvars(alloc, lexemes)?;
    let name = short_tycon(lexemes)?;
    let inner = of_ty(alloc, lexemes, Word::Equals, levels)?;
    Ok(Tall {
        tree: FullTypDesc {
            tyvars,
            name,
            ty: inner.tree,
        },
        height: inner.height,
    })
}

/// Further types, each behind an `and`.
#[tactic(auto, using(phrase_reading::proofs::Steps::further_steps))]
fn typ_descs(
    alloc: Global,
    lexemes: &mut Lexemes<'_>,
    levels: u32,
    found: Tall<List<FullTypDesc>>,
) -> Result<Tall<List<FullTypDesc>>, Stop>
    ensures { Reads (further Word.And (typ_desc (ty levels)) found) lexemes.old.rest.now
        result lexemes.new.rest.now }
{
    let mut found = found;
    while lexemes.sees(Word::And) {
        lexemes.take();
        let next = typ_desc(alloc, lexemes, levels)?;
        found = more(found, next)?;
    }
    Ok(found)
}

/// `type tyvars tycon [ = ty ] and ..`
#[tactic(auto, unfolding(crate::specs::Specifications::type_spec))]
pub fn type_spec(
    alloc: Global,
    lexemes: &mut Lexemes<'_>,
    levels: u32,
    place: At,
) -> Result<Tall<FullSpec>, Stop>
    ensures { Reads (type_spec (ty levels) place) lexemes.old.rest.now result lexemes.new.rest.now }
{
    let first = typ_desc(alloc, lexemes, levels)?;
    let found = typ_descs(alloc, lexemes, levels, one(alloc, first)?)?;
    Ok(one_above(FullSpec::Types(found.tree, place), found.height)?)
}

/// `tyvars tycon`
#[tactic(auto, unfolding(crate::specs::Specifications::eq_desc))]
fn eq_desc(alloc: Global, lexemes: &mut Lexemes<'_>) -> Result<Tall<TypDesc>, Stop>
    ensures { Reads eq_desc lexemes.old.rest.now result lexemes.new.rest.now }
{
    let tyvars = tyvars(alloc, lexemes)?;
    let name = short_tycon(lexemes)?;
    Ok(Tall {
        tree: TypDesc { tyvars, name },
        height: 0,
    })
}

/// Further types that admit equality, each behind an `and`.
#[tactic(auto, using(phrase_reading::proofs::Steps::further_steps))]
fn eq_descs(
    alloc: Global,
    lexemes: &mut Lexemes<'_>,
    found: Tall<List<TypDesc>>,
) -> Result<Tall<List<TypDesc>>, Stop>
    ensures { Reads (further Word.And eq_desc found) lexemes.old.rest.now result lexemes.new.rest.now }
{
    let mut found = found;
    while lexemes.sees(Word::And) {
        lexemes.take();
        let next = eq_desc(alloc, lexemes)?;
        found = more(found, next)?;
    }
    Ok(found)
}

/// `eqtype tyvars tycon and ..`
#[tactic(auto, unfolding(crate::specs::Specifications::eqtype_spec))]
pub fn eqtype_spec(
    alloc: Global,
    lexemes: &mut Lexemes<'_>,
    place: At,
) -> Result<Tall<FullSpec>, Stop>
    ensures { Reads (eqtype_spec place) lexemes.old.rest.now result lexemes.new.rest.now }
{
    let first = eq_desc(alloc, lexemes)?;
    let found = eq_descs(alloc, lexemes, one(alloc, first)?)?;
    Ok(one_above(FullSpec::Eqtypes(found.tree, place), found.height)?)
}

/// `vid [ of ty ]`
#[tactic(auto, unfolding(crate::specs::Specifications::con_desc, phrase_reading::specs::Names::name_with))]
fn con_desc(
    alloc: Global,
    lexemes: &mut Lexemes<'_>,
    levels: u32,
) -> Result<Tall<FullConBind>, Stop>
    ensures { Reads (con_desc (ty levels)) lexemes.old.rest.now result lexemes.new.rest.now }
{
    let name = lexemes.name()?;
    let arg = of_ty(alloc, lexemes, Word::Of, levels)?;
    Ok(Tall {
        tree: FullConBind {
            name: OpName { op: false, name },
            arg: arg.tree,
        },
        height: arg.height,
    })
}

/// Further constructors, each behind this mark.
#[tactic(auto, using(phrase_reading::proofs::Steps::further_steps))]
fn con_descs(
    alloc: Global,
    lexemes: &mut Lexemes<'_>,
    mark: Word,
    levels: u32,
    found: Tall<List<FullConBind>>,
) -> Result<Tall<List<FullConBind>>, Stop>
    ensures { Reads (further mark (con_desc (ty levels)) found) lexemes.old.rest.now
        result lexemes.new.rest.now }
{
    let mut found = found;
    while lexemes.sees(mark) {
        lexemes.take();
        let next = con_desc(alloc, lexemes, levels)?;
        found = more(found, next)?;
    }
    Ok(found)
}

/// A datatype behind its `=`.
#[tactic(auto, unfolding(crate::specs::Specifications::dat_desc_of))]
fn dat_desc_of(
    alloc: Global,
    lexemes: &mut Lexemes<'_>,
    levels: u32,
    tyvars: List<Name>,
    name: Name,
) -> Result<Tall<FullDatBind>, Stop>
    ensures { Reads (dat_desc_of (ty levels) tyvars name) lexemes.old.rest.now result lexemes.new.rest.now }
{
    let first = con_desc(alloc, lexemes, levels)?;
    let cons = con_descs(alloc, lexemes, Word::Bar, levels, one(alloc, first)?)?;
    Ok(Tall {
        tree: FullDatBind {
            tyvars,
            name,
            cons: cons.tree,
        },
        height: cons.height,
    })
}

/// `tyvars tycon = condesc | ..`
#[tactic(auto, unfolding(crate::specs::Specifications::dat_desc))]
fn dat_desc(
    alloc: Global,
    lexemes: &mut Lexemes<'_>,
    levels: u32,
) -> Result<Tall<FullDatBind>, Stop>
    ensures { Reads (dat_desc (ty levels)) lexemes.old.rest.now result lexemes.new.rest.now }
{
    let tyvars = tyvars(alloc, lexemes)?;
    let name = short_tycon(lexemes)?;
    lexemes.expect(Word::Equals)?;
    dat_desc_of(alloc, lexemes, levels, tyvars, name)
}

/// Further datatypes, each behind an `and`.
#[tactic(auto, using(phrase_reading::proofs::Steps::further_steps))]
fn dat_descs(
    alloc: Global,
    lexemes: &mut Lexemes<'_>,
    levels: u32,
    found: Tall<List<FullDatBind>>,
) -> Result<Tall<List<FullDatBind>>, Stop>
    ensures { Reads (further Word.And (dat_desc (ty levels)) found) lexemes.old.rest.now
        result lexemes.new.rest.now }
{
    let mut found = found;
    while lexemes.sees(Word::And) {
        lexemes.take();
        let next = dat_desc(alloc, lexemes, levels)?;
        found = more(found, next)?;
    }
    Ok(found)
}

/// Datatypes, behind the first `=`.
#[tactic(auto, unfolding(crate::specs::Specifications::datatype_descs))]
fn datatype_descs(
    alloc: Global,
    lexemes: &mut Lexemes<'_>,
    levels: u32,
    place: At,
    tyvars: List<Name>,
    name: Name,
) -> Result<Tall<FullSpec>, Stop>
    ensures { Reads (datatype_descs (ty levels) place tyvars name) lexemes.old.rest.now result lexemes.new.rest.now }
{
    let first = dat_desc_of(alloc, lexemes, levels, tyvars, name)?;
    let found = dat_descs(alloc, lexemes, levels, one(alloc, first)?)?;
    Ok(one_above(FullSpec::Datatypes(found.tree, place), found.height)?)
}

/// A datatype that is another one, behind the second `datatype`.
#[tactic(auto, unfolding(crate::specs::Specifications::replication_spec))]
fn replication_spec(
    lexemes: &mut Lexemes<'_>,
    place: At,
    name: Name,
) -> Result<Tall<FullSpec>, Stop>
    ensures { Reads (replication_spec place name) lexemes.old.rest.now result lexemes.new.rest.now }
{
    let original = lexemes.tycon()?;
    Ok(Tall {
        tree: FullSpec::Replication(name, original, place),
        height: 1,
    })
}

/// Behind the first `=`: without type variables it may be another datatype.
#[tactic(auto, using(phrase_reading::proofs::NameSteps::mark_steps), unfolding(crate::specs::Specifications::datatype_from))]
fn datatype_from(
    alloc: Global,
    lexemes: &mut Lexemes<'_>,
    levels: u32,
    place: At,
    tyvars: List<Name>,
    name: Name,
) -> Result<Tall<FullSpec>, Stop>
    ensures { Reads (datatype_from (ty levels) place tyvars name) lexemes.old.rest.now result lexemes.new.rest.now }
{
    if has_none(&tyvars) {
        if lexemes.sees(Word::Datatype) {
            lexemes.take();
            return replication_spec(lexemes, place, name);
        }
        return datatype_descs(alloc, lexemes, levels, place, tyvars, name);
    }
    datatype_descs(alloc, lexemes, levels, place, tyvars, name)
}

/// `datatype datdesc and ..`, and `datatype tycon = datatype longtycon`
#[tactic(auto, unfolding(crate::specs::Specifications::datatype_spec))]
pub fn datatype_spec(
    alloc: Global,
    lexemes: &mut Lexemes<'_>,
    levels: u32,
    place: At,
) -> Result<Tall<FullSpec>, Stop>
    ensures { Reads (datatype_spec (ty levels) place) lexemes.old.rest.now result lexemes.new.rest.now }
{
    let tyvars = tyvars(alloc, lexemes)?;
    let name = short_tycon(lexemes)?;
    lexemes.expect(Word::Equals)?;
    datatype_from(alloc, lexemes, levels, place, tyvars, name)
}

/// `exception vid [ of ty ] and ..`
#[tactic(auto, unfolding(crate::specs::Specifications::exception_spec))]
pub fn exception_spec(
    alloc: Global,
    lexemes: &mut Lexemes<'_>,
    levels: u32,
    place: At,
) -> Result<Tall<FullSpec>, Stop>
    ensures { Reads (exception_spec (ty levels) place) lexemes.old.rest.now result lexemes.new.rest.now }
{
    let first = con_desc(alloc, lexemes, levels)?;
    let found = con_descs(alloc, lexemes, Word::And, levels, one(alloc, first)?)?;
    Ok(one_above(FullSpec::Exceptions(found.tree, place), found.height)?)
}
