//! Signature expressions and specifications read from bytes.

ghost use Rattle.std.specs.Prelude.{◌≡◌};
ghost use Rattle.cm_bytes.specs.Fields.{list_at};
ghost use Rattle.sml_syntax.specs.ReadingSig.{sig_steps, sig_table, spec_table, spec_body_table, sig_bind_at};
ghost use Rattle.sml_syntax.specs.Took.{Took};

use crate::fault::CodeFault;
use crate::read_parts::{deeper, read_byte, read_count, read_list, read_long, read_name};
use crate::read_ty::read_ty;
use cm_base::{Boxed, List};
use cm_bytes::Reader;
use sml_trees::{At, SigBind, SigExp, Spec};
use std::alloc::Global;

/// A signature expression of at most so many tags in one another.
#[cycle(read_sig)]
#[tactic(auto, using(crate::proofs::ReadSteps::sig_levels), unfolding(crate::specs::Steps::tagged))]
pub fn read_sig(alloc: Global, reader: &mut Reader, depth: u32) -> Result<SigExp, CodeFault>
    ensures { Took ((sig_steps depth).sig reader.old) result reader.new }
{
    let below = deeper(depth)?;
    let tag = read_byte(reader)?;
    read_sig_parts(alloc, reader, below, tag)
}

/// What stands behind the tag of a signature expression.
#[cycle(read_sig)]
#[tactic(auto, unfolding(crate::specs::Steps::or_tag, crate::specs::Steps::made, crate::specs::Steps::both))]
fn read_sig_parts(
    alloc: Global,
    reader: &mut Reader,
    depth: u32,
    tag: u8,
) -> Result<SigExp, CodeFault>
    ensures { Took (sig_table depth (sig_steps depth) tag reader.old) result reader.new }
{
    let at = At { line: 0, col: 0 };
    match tag {
        0x60 => Ok(SigExp::Sig(read_spec_body(alloc, reader, depth)?, at)),
        0x61 => Ok(SigExp::Named(read_name(alloc, reader)?, at)),
        0x62 => {
            let sig = read_boxed_sig(alloc, reader, depth)?;
            let tyvars = read_list(alloc, reader, depth)?;
            let long = read_long(alloc, reader)?;
            Ok(SigExp::Where(sig, tyvars, long, read_ty(alloc, reader, depth)?, at))
        }
        _ => Err(CodeFault::BadCode),
    }
}

#[cycle(read_sig)]
fn read_boxed_sig(
    alloc: Global,
    reader: &mut Reader,
    depth: u32,
) -> Result<Boxed<SigExp>, CodeFault>
    ensures { Took ((sig_steps depth).sig reader.old) result reader.new }
{
    let sig = read_sig(alloc, reader, depth)?;
    Ok(Boxed::new(alloc, sig)?)
}

/// A specification of at most so many tags in one another.
#[cycle(read_sig)]
#[tactic(auto, using(crate::proofs::ReadSteps::sig_levels), unfolding(crate::specs::Steps::tagged))]
fn read_spec(alloc: Global, reader: &mut Reader, depth: u32) -> Result<Spec, CodeFault>
    ensures { Took ((sig_steps depth).spec reader.old) result reader.new }
{
    let below = deeper(depth)?;
    let tag = read_byte(reader)?;
    read_spec_parts(alloc, reader, below, tag)
}

/// What stands behind the tag of a specification.
#[cycle(read_sig)]
#[tactic(auto, unfolding(crate::specs::Steps::or_tag, crate::specs::Steps::made, crate::specs::Steps::both))]
fn read_spec_parts(
    alloc: Global,
    reader: &mut Reader,
    depth: u32,
    tag: u8,
) -> Result<Spec, CodeFault>
    ensures { Took (spec_table depth (sig_steps depth) tag reader.old) result reader.new }
{
    let at = At { line: 0, col: 0 };
    match tag {
        0x70 => Ok(Spec::Vals(read_list(alloc, reader, depth)?, at)),
        0x71 => Ok(Spec::Types(read_list(alloc, reader, depth)?, at)),
        0x72 => Ok(Spec::Eqtypes(read_list(alloc, reader, depth)?, at)),
        0x73 => Ok(Spec::Datatypes(read_list(alloc, reader, depth)?, at)),
        0x74 => {
            let name = read_name(alloc, reader)?;
            Ok(Spec::Replication(name, read_long(alloc, reader)?, at))
        }
        0x75 => Ok(Spec::Exceptions(read_list(alloc, reader, depth)?, at)),
        0x76 => Ok(Spec::Structures(read_sig_binds(alloc, reader, depth)?, at)),
        0x77 => Ok(Spec::Include(read_boxed_sig(alloc, reader, depth)?, at)),
        0x78 => Ok(Spec::Sequence(read_specs(alloc, reader, depth)?, at)),
        _ => Err(CodeFault::BadCode),
    }
}

/// The body of a `sig`, which is a sequence.
#[cycle(read_sig)]
#[tactic(auto, using(crate::proofs::ReadSteps::sig_levels), unfolding(crate::specs::Steps::tagged))]
fn read_spec_body(alloc: Global, reader: &mut Reader, depth: u32) -> Result<Boxed<Spec>, CodeFault>
    ensures { Took ((sig_steps depth).spec_body reader.old) result reader.new }
{
    let below = deeper(depth)?;
    let tag = read_byte(reader)?;
    read_spec_body_parts(alloc, reader, below, tag)
}

/// What stands behind the tag of a body.
#[cycle(read_sig)]
#[tactic(auto, unfolding(crate::specs::Steps::or_tag, crate::specs::Steps::made))]
fn read_spec_body_parts(
    alloc: Global,
    reader: &mut Reader,
    depth: u32,
    tag: u8,
) -> Result<Boxed<Spec>, CodeFault>
    ensures { Took (spec_body_table (sig_steps depth) tag reader.old) result reader.new }
{
    if tag != 0x78 {
        return Err(CodeFault::BadCode);
    }
    let body = Spec::Sequence(read_specs(alloc, reader, depth)?, At { line: 0, col: 0 });
    Ok(Boxed::new(alloc, body)?)
}

#[cycle(read_sig)]
#[tactic(auto, using(crate::proofs::ReadSteps::item_steps), unfolding(cm_bytes::specs::Fields::list_at))]
fn read_specs(alloc: Global, reader: &mut Reader, depth: u32) -> Result<List<Spec>, CodeFault>
    ensures { Took (list_at ((sig_steps depth).spec) reader.old) result reader.new }
{
    let count = read_count(reader)?;
    let mut items = List::new(alloc);
    for _ in 0..count {
        let item = read_spec(alloc, reader, depth)?;
        items.add(item)?;
    }
    Ok(items)
}

#[cycle(read_sig)]
#[tactic(auto, using(crate::proofs::ReadSteps::item_steps), unfolding(cm_bytes::specs::Fields::list_at))]
pub fn read_sig_binds(
    alloc: Global,
    reader: &mut Reader,
    depth: u32,
) -> Result<List<SigBind>, CodeFault>
    ensures { Took (list_at (sig_bind_at depth (sig_steps depth)) reader.old) result reader.new }
{
    let count = read_count(reader)?;
    let mut items = List::new(alloc);
    for _ in 0..count {
        let item = read_sig_bind(alloc, reader, depth)?;
        items.add(item)?;
    }
    Ok(items)
}

#[cycle(read_sig)]
#[tactic(auto, unfolding(crate::specs::ReadingSig::sig_bind_at, crate::specs::Steps::made, crate::specs::Steps::both))]
fn read_sig_bind(alloc: Global, reader: &mut Reader, depth: u32) -> Result<SigBind, CodeFault>
    ensures { Took (sig_bind_at depth (sig_steps depth) reader.old) result reader.new }
{
    let name = read_name(alloc, reader)?;
    let sig = read_sig(alloc, reader, depth)?;
    Ok(SigBind { name, sig })
}
