//! Patterns read from bytes.

ghost use Rattle.std.specs.Prelude.{◌≡◌};
ghost use Rattle.cm_bytes.specs.Fields.{list_at};
ghost use Rattle.sml_syntax.specs.ReadingPat.{pat_steps, pat_table, pat_field_at};
ghost use Rattle.sml_syntax.specs.Took.{Took};

use crate::fault::CodeFault;
use crate::read_parts::{deeper, read_byte, read_count, read_int, read_long, read_name, read_text};
use crate::read_ty::{read_optional_ty, read_ty};
use cm_base::{Boxed, List};
use cm_bytes::Reader;
use sml_trees::{At, Pat, PatField};
use std::alloc::Global;

/// A pattern of at most so many tags in one another.
#[cycle(read_pat)]
#[tactic(auto, using(crate::proofs::ReadSteps::pat_levels), unfolding(crate::specs::Steps::tagged))]
pub fn read_pat(alloc: Global, reader: &mut Reader, depth: u32) -> Result<Pat, CodeFault>
    ensures { Took ((pat_steps depth).pat reader.old) result reader.new }
{
    let below = deeper(depth)?;
    let tag = read_byte(reader)?;
    read_pat_parts(alloc, reader, below, tag)
}

/// What stands behind the tag of a pattern.
#[cycle(read_pat)]
#[tactic(auto, unfolding(crate::specs::Steps::or_tag, crate::specs::Steps::made, crate::specs::Steps::both))]
fn read_pat_parts(alloc: Global, reader: &mut Reader, depth: u32, tag: u8) -> Result<Pat, CodeFault>
    ensures { Took (pat_table depth (pat_steps depth) tag reader.old) result reader.new }
{
    let at = At { line: 0, col: 0 };
    match tag {
        0x20 => Ok(Pat::Wild(at)),
        0x21 => Ok(Pat::Int(read_int(reader)?, at)),
        0x22 => Ok(Pat::Str(read_text(alloc, reader)?, at)),
        0x23 => Ok(Pat::Char(read_byte(reader)?, at)),
        0x24 => Ok(Pat::Long(read_long(alloc, reader)?, at)),
        0x25 => Ok(Pat::Record(read_pat_fields(alloc, reader, depth)?, at)),
        0x26 => {
            let long = read_long(alloc, reader)?;
            Ok(Pat::Con(long, read_boxed_pat(alloc, reader, depth)?, at))
        }
        0x27 => {
            let pat = read_boxed_pat(alloc, reader, depth)?;
            Ok(Pat::Typed(pat, read_ty(alloc, reader, depth)?, at))
        }
        0x28 => {
            let name = read_name(alloc, reader)?;
            let ty = read_optional_ty(alloc, reader, depth)?;
            Ok(Pat::As(name, ty, read_boxed_pat(alloc, reader, depth)?, at))
        }
        _ => Err(CodeFault::BadCode),
    }
}

#[cycle(read_pat)]
fn read_boxed_pat(alloc: Global, reader: &mut Reader, depth: u32) -> Result<Boxed<Pat>, CodeFault>
    ensures { Took ((pat_steps depth).pat reader.old) result reader.new }
{
    let pat = read_pat(alloc, reader, depth)?;
    Ok(Boxed::new(alloc, pat)?)
}

#[cycle(read_pat)]
#[tactic(auto, using(crate::proofs::ReadSteps::item_steps), unfolding(cm_bytes::specs::Fields::list_at))]
fn read_pat_fields(
    alloc: Global,
    reader: &mut Reader,
    depth: u32,
) -> Result<List<PatField>, CodeFault>
    ensures { Took (list_at (pat_field_at depth (pat_steps depth)) reader.old) result reader.new }
{
    let count = read_count(reader)?;
    let mut items = List::new(alloc);
    for _ in 0..count {
        let item = read_pat_field(alloc, reader, depth)?;
        items.add(item)?;
    }
    Ok(items)
}

#[cycle(read_pat)]
#[tactic(auto, unfolding(crate::specs::ReadingPat::pat_field_at, crate::specs::Steps::made, crate::specs::Steps::both))]
fn read_pat_field(alloc: Global, reader: &mut Reader, depth: u32) -> Result<PatField, CodeFault>
    ensures { Took (pat_field_at depth (pat_steps depth) reader.old) result reader.new }
{
    let label = read_name(alloc, reader)?;
    let pat = read_pat(alloc, reader, depth)?;
    Ok(PatField { label, pat })
}
