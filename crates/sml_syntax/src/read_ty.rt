//! Types read from bytes.

ghost use Rattle.std.specs.Prelude.{◌≡◌, ◌+◌, ◌<◌};
ghost use Rattle.cm_bytes.specs.Fields.{list_at};
ghost use Rattle.sml_syntax.specs.Reading.{ty_at, ty_table, ty_field_at};
ghost use Rattle.sml_syntax.specs.Took.{Took};
ghost use Rattle.sml_syntax.specs.Steps.{option_at, option_table};

use crate::fault::CodeFault;
use crate::read_parts::{deeper, read_byte, read_count, read_long, read_name};
use cm_base::{Boxed, List};
use cm_bytes::Reader;
use sml_trees::{At, Ty, TyField};
use std::alloc::Global;

/// A type of at most so many tags in one another.
#[cycle(read_ty)]
#[tactic(auto, using(crate::proofs::ReadSteps::ty_levels), unfolding(crate::specs::Steps::tagged))]
pub fn read_ty(alloc: Global, reader: &mut Reader, depth: u32) -> Result<Ty, CodeFault>
    ensures { Took (ty_at depth reader.old) result reader.new }
{
    let below = deeper(depth)?;
    let tag = read_byte(reader)?;
    read_ty_parts(alloc, reader, below, tag)
}

/// What stands behind the tag of a type.
#[cycle(read_ty)]
#[tactic(auto, unfolding(crate::specs::Steps::or_tag, crate::specs::Steps::made, crate::specs::Steps::both))]
fn read_ty_parts(alloc: Global, reader: &mut Reader, depth: u32, tag: u8) -> Result<Ty, CodeFault>
    ensures { Took (ty_table (ty_at depth) tag reader.old) result reader.new }
{
    let at = At { line: 0, col: 0 };
    match tag {
        0x30 => Ok(Ty::Var(read_name(alloc, reader)?, at)),
        0x31 => Ok(Ty::Record(read_ty_fields(alloc, reader, depth)?, at)),
        0x32 => {
            let args = read_tys(alloc, reader, depth)?;
            Ok(Ty::Named(args, read_long(alloc, reader)?, at))
        }
        0x33 => {
            let from = read_boxed_ty(alloc, reader, depth)?;
            Ok(Ty::Arrow(from, read_boxed_ty(alloc, reader, depth)?, at))
        }
        _ => Err(CodeFault::BadCode),
    }
}

#[cycle(read_ty)]
fn read_boxed_ty(alloc: Global, reader: &mut Reader, depth: u32) -> Result<Boxed<Ty>, CodeFault>
    ensures { Took (ty_at depth reader.old) result reader.new }
{
    let ty = read_ty(alloc, reader, depth)?;
    Ok(Boxed::new(alloc, ty)?)
}

#[cycle(read_ty)]
#[tactic(auto, using(crate::proofs::ReadSteps::item_steps), unfolding(cm_bytes::specs::Fields::list_at))]
fn read_tys(alloc: Global, reader: &mut Reader, depth: u32) -> Result<List<Ty>, CodeFault>
    ensures { Took (list_at (ty_at depth) reader.old) result reader.new }
{
    let count = read_count(reader)?;
    let mut items = List::new(alloc);
    for _ in 0..count {
        let item = read_ty(alloc, reader, depth)?;
        items.add(item)?;
    }
    Ok(items)
}

#[cycle(read_ty)]
#[tactic(auto, using(crate::proofs::ReadSteps::item_steps), unfolding(cm_bytes::specs::Fields::list_at))]
fn read_ty_fields(
    alloc: Global,
    reader: &mut Reader,
    depth: u32,
) -> Result<List<TyField>, CodeFault>
    ensures { Took (list_at (ty_field_at (ty_at depth)) reader.old) result reader.new }
{
    let count = read_count(reader)?;
    let mut items = List::new(alloc);
    for _ in 0..count {
        let item = read_ty_field(alloc, reader, depth)?;
        items.add(item)?;
    }
    Ok(items)
}

#[cycle(read_ty)]
#[tactic(auto, unfolding(crate::specs::Reading::ty_field_at, crate::specs::Steps::made, crate::specs::Steps::both))]
fn read_ty_field(alloc: Global, reader: &mut Reader, depth: u32) -> Result<TyField, CodeFault>
    ensures { Took (ty_field_at (ty_at depth) reader.old) result reader.new }
{
    let label = read_name(alloc, reader)?;
    let ty = read_ty(alloc, reader, depth)?;
    Ok(TyField { label, ty })
}

/// A type that may be absent.
#[tactic(auto, unfolding(crate::specs::Steps::option_at, crate::specs::Steps::tagged))]
pub fn read_optional_ty(
    alloc: Global,
    reader: &mut Reader,
    depth: u32,
) -> Result<Option<Ty>, CodeFault>
    ensures { Took (option_at (ty_at depth) reader.old) result reader.new }
{
    let present = read_byte(reader)?;
    read_optional_ty_parts(alloc, reader, depth, present)
}

/// What stands behind the byte that says whether a type is there.
#[tactic(auto, unfolding(crate::specs::Steps::or_tag, crate::specs::Steps::made))]
fn read_optional_ty_parts(
    alloc: Global,
    reader: &mut Reader,
    depth: u32,
    present: u8,
) -> Result<Option<Ty>, CodeFault>
    ensures { Took (option_table (ty_at depth) present reader.old) result reader.new }
{
    match present {
        0 => Ok(None),
        1 => Ok(Some(read_ty(alloc, reader, depth)?)),
        _ => Err(CodeFault::BadCode),
    }
}
