//! Expressions, declarations and structure expressions read from bytes.

ghost use Rattle.std.specs.Prelude.{◌≡◌};
ghost use Rattle.cm_bytes.specs.Fields.{list_at};
ghost use Rattle.sml_syntax.specs.ReadingExp.{exp_steps, exp_table, dec_table, str_table, dec_body_table, exp_field_at, rule_at, str_bind_at};
ghost use Rattle.sml_syntax.specs.Took.{Took};

use crate::fault::CodeFault;
use crate::read_parts::{
    deeper, read_byte, read_count, read_int, read_list, read_long, read_name, read_text,
};
use crate::read_pat::read_pat;
use crate::read_sig::read_sig;
use crate::read_ty::read_ty;
use cm_base::{Boxed, List};
use cm_bytes::Reader;
use sml_trees::{At, Dec, Exp, ExpField, Rule, StrBind, StrExp};
use std::alloc::Global;

/// An expression of at most so many tags in one another.
#[cycle(read_exp)]
#[tactic(auto, using(crate::proofs::ReadSteps::exp_levels), unfolding(crate::specs::Steps::tagged))]
fn read_exp(alloc: Global, reader: &mut Reader, depth: u32) -> Result<Exp, CodeFault>
    ensures { Took ((exp_steps depth).exp reader.old) result reader.new }
{
    let below = deeper(depth)?;
    let tag = read_byte(reader)?;
    read_exp_parts(alloc, reader, below, tag)
}

/// What stands behind the tag of an expression.
#[cycle(read_exp)]
#[tactic(auto, unfolding(crate::specs::Steps::or_tag, crate::specs::Steps::made, crate::specs::Steps::both))]
fn read_exp_parts(alloc: Global, reader: &mut Reader, depth: u32, tag: u8) -> Result<Exp, CodeFault>
    ensures { Took (exp_table depth (exp_steps depth) tag reader.old) result reader.new }
{
    let at = At { line: 0, col: 0 };
    match tag {
        0x10 => Ok(Exp::Int(read_int(reader)?, at)),
        0x11 => Ok(Exp::Str(read_text(alloc, reader)?, at)),
        0x12 => Ok(Exp::Char(read_byte(reader)?, at)),
        0x13 => Ok(Exp::Long(read_long(alloc, reader)?, at)),
        0x14 => Ok(Exp::Record(read_exp_fields(alloc, reader, depth)?, at)),
        0x15 => {
            let dec = read_body(alloc, reader, depth)?;
            Ok(Exp::Let(dec, read_boxed_exp(alloc, reader, depth)?, at))
        }
        0x16 => {
            let function = read_boxed_exp(alloc, reader, depth)?;
            Ok(Exp::App(function, read_boxed_exp(alloc, reader, depth)?, at))
        }
        0x17 => {
            let exp = read_boxed_exp(alloc, reader, depth)?;
            Ok(Exp::Typed(exp, read_ty(alloc, reader, depth)?, at))
        }
        0x18 => {
            let exp = read_boxed_exp(alloc, reader, depth)?;
            Ok(Exp::Handle(exp, read_rules(alloc, reader, depth)?, at))
        }
        0x19 => Ok(Exp::Raise(read_boxed_exp(alloc, reader, depth)?, at)),
        0x1A => Ok(Exp::Fn(read_rules(alloc, reader, depth)?, at)),
        _ => Err(CodeFault::BadCode),
    }
}

#[cycle(read_exp)]
fn read_boxed_exp(alloc: Global, reader: &mut Reader, depth: u32) -> Result<Boxed<Exp>, CodeFault>
    ensures { Took ((exp_steps depth).exp reader.old) result reader.new }
{
    let exp = read_exp(alloc, reader, depth)?;
    Ok(Boxed::new(alloc, exp)?)
}

#[cycle(read_exp)]
#[tactic(auto, using(crate::proofs::ReadSteps::item_steps), unfolding(cm_bytes::specs::Fields::list_at))]
fn read_exp_fields(
    alloc: Global,
    reader: &mut Reader,
    depth: u32,
) -> Result<List<ExpField>, CodeFault>
    ensures { Took (list_at (exp_field_at depth (exp_steps depth)) reader.old) result reader.new }
{
    let count = read_count(reader)?;
    let mut items = List::new(alloc);
    for _ in 0..count {
        let item = read_exp_field(alloc, reader, depth)?;
        items.add(item)?;
    }
    Ok(items)
}

#[cycle(read_exp)]
#[tactic(auto, unfolding(crate::specs::ReadingExp::exp_field_at, crate::specs::Steps::made, crate::specs::Steps::both))]
fn read_exp_field(alloc: Global, reader: &mut Reader, depth: u32) -> Result<ExpField, CodeFault>
    ensures { Took (exp_field_at depth (exp_steps depth) reader.old) result reader.new }
{
    let label = read_name(alloc, reader)?;
    let exp = read_exp(alloc, reader, depth)?;
    Ok(ExpField { label, exp })
}

#[cycle(read_exp)]
#[tactic(auto, using(crate::proofs::ReadSteps::item_steps), unfolding(cm_bytes::specs::Fields::list_at))]
fn read_rules(alloc: Global, reader: &mut Reader, depth: u32) -> Result<List<Rule>, CodeFault>
    ensures { Took (list_at (rule_at depth (exp_steps depth)) reader.old) result reader.new }
{
    let count = read_count(reader)?;
    let mut items = List::new(alloc);
    for _ in 0..count {
        let item = read_rule(alloc, reader, depth)?;
        items.add(item)?;
    }
    Ok(items)
}

#[cycle(read_exp)]
#[tactic(auto, unfolding(crate::specs::ReadingExp::rule_at, crate::specs::Steps::made, crate::specs::Steps::both))]
fn read_rule(alloc: Global, reader: &mut Reader, depth: u32) -> Result<Rule, CodeFault>
    ensures { Took (rule_at depth (exp_steps depth) reader.old) result reader.new }
{
    let pat = read_pat(alloc, reader, depth)?;
    let exp = read_exp(alloc, reader, depth)?;
    Ok(Rule { pat, exp })
}

/// A declaration of at most so many tags in one another.
#[cycle(read_exp)]
#[tactic(auto, using(crate::proofs::ReadSteps::exp_levels), unfolding(crate::specs::Steps::tagged))]
fn read_dec(alloc: Global, reader: &mut Reader, depth: u32) -> Result<Dec, CodeFault>
    ensures { Took ((exp_steps depth).dec reader.old) result reader.new }
{
    let below = deeper(depth)?;
    let tag = read_byte(reader)?;
    read_dec_parts(alloc, reader, below, tag)
}

/// What stands behind the tag of a declaration.
#[cycle(read_exp)]
#[tactic(auto, unfolding(crate::specs::Steps::or_tag, crate::specs::Steps::made, crate::specs::Steps::both))]
fn read_dec_parts(alloc: Global, reader: &mut Reader, depth: u32, tag: u8) -> Result<Dec, CodeFault>
    ensures { Took (dec_table depth (exp_steps depth) tag reader.old) result reader.new }
{
    let at = At { line: 0, col: 0 };
    match tag {
        0x40 => {
            let tyvars = read_list(alloc, reader, depth)?;
            let binds = read_rules(alloc, reader, depth)?;
            Ok(Dec::Val(tyvars, binds, read_rules(alloc, reader, depth)?, at))
        }
        0x41 => Ok(Dec::Types(read_list(alloc, reader, depth)?, at)),
        0x42 => Ok(Dec::Datatypes(read_list(alloc, reader, depth)?, at)),
        0x43 => {
            let name = read_name(alloc, reader)?;
            Ok(Dec::Replication(name, read_long(alloc, reader)?, at))
        }
        0x44 => Ok(Dec::Exceptions(read_list(alloc, reader, depth)?, at)),
        0x45 => {
            let hidden = read_body(alloc, reader, depth)?;
            Ok(Dec::Local(hidden, read_body(alloc, reader, depth)?, at))
        }
        0x46 => Ok(Dec::Open(read_list(alloc, reader, depth)?, at)),
        0x47 => Ok(Dec::Sequence(read_decs(alloc, reader, depth)?, at)),
        0x48 => Ok(Dec::Structures(read_str_binds(alloc, reader, depth)?, at)),
        _ => Err(CodeFault::BadCode),
    }
}

/// What is to be a sequence: the body of `struct` and `let`, and each side of `local`.
#[cycle(read_exp)]
#[tactic(auto, using(crate::proofs::ReadSteps::exp_levels), unfolding(crate::specs::Steps::tagged))]
fn read_body(alloc: Global, reader: &mut Reader, depth: u32) -> Result<Boxed<Dec>, CodeFault>
    ensures { Took ((exp_steps depth).dec_body reader.old) result reader.new }
{
    let below = deeper(depth)?;
    let tag = read_byte(reader)?;
    read_body_parts(alloc, reader, below, tag)
}

/// What stands behind the tag of a body.
#[cycle(read_exp)]
#[tactic(auto, unfolding(crate::specs::Steps::or_tag, crate::specs::Steps::made))]
fn read_body_parts(
    alloc: Global,
    reader: &mut Reader,
    depth: u32,
    tag: u8,
) -> Result<Boxed<Dec>, CodeFault>
    ensures { Took (dec_body_table (exp_steps depth) tag reader.old) result reader.new }
{
    if tag != 0x47 {
        return Err(CodeFault::BadCode);
    }
    let body = Dec::Sequence(read_decs(alloc, reader, depth)?, At { line: 0, col: 0 });
    Ok(Boxed::new(alloc, body)?)
}

#[cycle(read_exp)]
#[tactic(auto, using(crate::proofs::ReadSteps::item_steps), unfolding(cm_bytes::specs::Fields::list_at))]
fn read_decs(alloc: Global, reader: &mut Reader, depth: u32) -> Result<List<Dec>, CodeFault>
    ensures { Took (list_at ((exp_steps depth).dec) reader.old) result reader.new }
{
    let count = read_count(reader)?;
    let mut items = List::new(alloc);
    for _ in 0..count {
        let item = read_dec(alloc, reader, depth)?;
        items.add(item)?;
    }
    Ok(items)
}

/// A structure expression of at most so many tags in one another.
#[cycle(read_exp)]
#[tactic(auto, using(crate::proofs::ReadSteps::exp_levels), unfolding(crate::specs::Steps::tagged))]
pub fn read_str(alloc: Global, reader: &mut Reader, depth: u32) -> Result<StrExp, CodeFault>
    ensures { Took ((exp_steps depth).str reader.old) result reader.new }
{
    let below = deeper(depth)?;
    let tag = read_byte(reader)?;
    read_str_parts(alloc, reader, below, tag)
}

/// What stands behind the tag of a structure expression.
#[cycle(read_exp)]
#[tactic(auto, unfolding(crate::specs::Steps::or_tag, crate::specs::Steps::made, crate::specs::Steps::both))]
fn read_str_parts(
    alloc: Global,
    reader: &mut Reader,
    depth: u32,
    tag: u8,
) -> Result<StrExp, CodeFault>
    ensures { Took (str_table depth (exp_steps depth) tag reader.old) result reader.new }
{
    let at = At { line: 0, col: 0 };
    match tag {
        0x50 => Ok(StrExp::Struct(read_body(alloc, reader, depth)?, at)),
        0x51 => Ok(StrExp::Named(read_long(alloc, reader)?, at)),
        0x52 => {
            let str = read_boxed_str(alloc, reader, depth)?;
            Ok(StrExp::Transparent(str, read_sig(alloc, reader, depth)?, at))
        }
        0x53 => {
            let str = read_boxed_str(alloc, reader, depth)?;
            Ok(StrExp::Opaque(str, read_sig(alloc, reader, depth)?, at))
        }
        0x54 => {
            let name = read_name(alloc, reader)?;
            Ok(StrExp::Functor(name, read_boxed_str(alloc, reader, depth)?, at))
        }
        0x55 => {
            let dec = read_body(alloc, reader, depth)?;
            Ok(StrExp::Within(dec, read_boxed_str(alloc, reader, depth)?, at))
        }
        _ => Err(CodeFault::BadCode),
    }
}

#[cycle(read_exp)]
fn read_boxed_str(
    alloc: Global,
    reader: &mut Reader,
    depth: u32,
) -> Result<Boxed<StrExp>, CodeFault>
    ensures { Took ((exp_steps depth).str reader.old) result reader.new }
{
    let str = read_str(alloc, reader, depth)?;
    Ok(Boxed::new(alloc, str)?)
}

#[cycle(read_exp)]
#[tactic(auto, using(crate::proofs::ReadSteps::item_steps), unfolding(cm_bytes::specs::Fields::list_at))]
pub fn read_str_binds(
    alloc: Global,
    reader: &mut Reader,
    depth: u32,
) -> Result<List<StrBind>, CodeFault>
    ensures { Took (list_at (str_bind_at depth (exp_steps depth)) reader.old) result reader.new }
{
    let count = read_count(reader)?;
    let mut items = List::new(alloc);
    for _ in 0..count {
        let item = read_str_bind(alloc, reader, depth)?;
        items.add(item)?;
    }
    Ok(items)
}

#[cycle(read_exp)]
#[tactic(auto, unfolding(crate::specs::ReadingExp::str_bind_at, crate::specs::Steps::made, crate::specs::Steps::both))]
fn read_str_bind(alloc: Global, reader: &mut Reader, depth: u32) -> Result<StrBind, CodeFault>
    ensures { Took (str_bind_at depth (exp_steps depth) reader.old) result reader.new }
{
    let name = read_name(alloc, reader)?;
    let body = read_str(alloc, reader, depth)?;
    Ok(StrBind { name, body })
}
