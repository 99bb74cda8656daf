//! Reads the code of a unit.

ghost use Rattle.std.specs.Prelude.{◌≡◌};
ghost use Rattle.sml_syntax.specs.ReadingUnit.{topdec_at, topdec_table, code_at, most_tags, unit_of};
ghost use Rattle.sml_syntax.specs.Took.{Took, IsUnitOf, ReadsCode};

use crate::fault::CodeFault;
use crate::read_exp::{read_str, read_str_binds};
use crate::read_parts::{Readable, deeper, read_byte, read_list, read_name};
use crate::read_sig::{read_sig, read_sig_binds};
use cm_base::{List, Text};
use cm_bytes::Reader;
use sml_trees::{At, BareUnit, FunBind, FunsigBind, TopDec};
use std::alloc::Global;

/// How many tags stand in one another at most.
#[tactic(auto, unfolding(crate::specs::ReadingUnit::most_tags))]
fn most_tags() -> u32
    ensures { result ≡ most_tags }
{
    1024
}

impl Readable for FunBind {
    ghost use Rattle.sml_syntax.specs.ReadingUnit.{fun_bind_at};

    ghost step = { fun_bind_at };

    #[tactic(auto, unfolding(crate::specs::ReadingUnit::fun_bind_at, crate::specs::Steps::made, crate::specs::Steps::both))]
    fn read(alloc: Global, reader: &mut Reader, depth: u32) -> Result<Self, CodeFault> {
        let name = read_name(alloc, reader)?;
        let param = read_name(alloc, reader)?;
        let param_sig = read_sig(alloc, reader, depth)?;
        let body = read_str(alloc, reader, depth)?;
        Ok(FunBind {
            name,
            param,
            param_sig,
            body,
        })
    }
}

impl Readable for FunsigBind {
    ghost use Rattle.sml_syntax.specs.ReadingUnit.{funsig_bind_at};

    ghost step = { funsig_bind_at };

    #[tactic(auto, unfolding(crate::specs::ReadingUnit::funsig_bind_at, crate::specs::Steps::made, crate::specs::Steps::both))]
    fn read(alloc: Global, reader: &mut Reader, depth: u32) -> Result<Self, CodeFault> {
        let name = read_name(alloc, reader)?;
        let param = read_name(alloc, reader)?;
        let param_sig = read_sig(alloc, reader, depth)?;
        let result_sig = read_sig(alloc, reader, depth)?;
        Ok(FunsigBind {
            name,
            param,
            param_sig,
            result_sig,
        })
    }
}

impl Readable for TopDec {
    ghost use Rattle.sml_syntax.specs.ReadingUnit.{topdec_at};

    ghost step = { topdec_at };

    #[tactic(auto, using(crate::proofs::ReadSteps::topdec_levels), unfolding(crate::specs::Steps::tagged))]
    fn read(alloc: Global, reader: &mut Reader, depth: u32) -> Result<Self, CodeFault> {
        let below = deeper(depth)?;
        let tag = read_byte(reader)?;
        read_topdec_parts(alloc, reader, below, tag)
    }
}

/// What stands behind the tag of a declaration of the top level.
#[tactic(auto, unfolding(crate::specs::Steps::or_tag, crate::specs::Steps::made))]
fn read_topdec_parts(
    alloc: Global,
    reader: &mut Reader,
    depth: u32,
    tag: u8,
) -> Result<TopDec, CodeFault>
    ensures { Took (topdec_table depth tag reader.old) result reader.new }
{
    let at = At { line: 0, col: 0 };
    match tag {
        0x80 => Ok(TopDec::Structures(read_str_binds(alloc, reader, depth)?, at)),
        0x81 => Ok(TopDec::Signatures(read_sig_binds(alloc, reader, depth)?, at)),
        0x82 => Ok(TopDec::Functors(read_list(alloc, reader, depth)?, at)),
        0x83 => Ok(TopDec::Funsigs(read_list(alloc, reader, depth)?, at)),
        _ => Err(CodeFault::BadCode),
    }
}

/// The mark of a code, and its declarations.
#[tactic(auto, using(crate::proofs::Marks::mark_steps), unfolding(crate::specs::ReadingUnit::code_at))]
fn read_topdecs(alloc: Global, reader: &mut Reader) -> Result<List<TopDec>, CodeFault>
    ensures { Took (code_at reader.old) result reader.new }
{
    if read_byte(reader)? != b'C' {
        return Err(CodeFault::BadCode);
    }
    if read_byte(reader)? != b'M' {
        return Err(CodeFault::BadCode);
    }
    if read_byte(reader)? != b'C' {
        return Err(CodeFault::BadCode);
    }
    if read_byte(reader)? != b'1' {
        return Err(CodeFault::BadCode);
    }
    let topdecs = read_list(alloc, reader, most_tags())?;
    Ok(topdecs)
}

/// The unit that all of these bytes are the code of.
#[tactic(auto, unfolding(crate::specs::ReadingUnit::unit_of))]
fn read_unit(alloc: Global, bytes: &[u8]) -> Result<BareUnit, CodeFault>
    ensures { IsUnitOf bytes.now result }
{
    let mut reader = Reader::new(bytes);
    let topdecs = read_topdecs(alloc, &mut reader)?;
    if !reader.at_end() {
        return Err(CodeFault::BadCode);
    }
    let file = Text::from_bytes(alloc, b"")?;
    Ok(BareUnit { file, topdecs })
}

/// The unit that has this code, with places of 0 and no name of a file. `BadCode` where the bytes, all of them, are
/// no unit's code: where something is cut short, counted wrong or unknown, a body that is to be a sequence is none,
/// more than 1,024 tags stand in one another, or anything follows.
pub fn read_code(alloc: Global, bytes: &[u8]) -> Result<BareUnit, CodeFault>
    ensures read { IsUnitOf bytes.now result }
    ensures spelled { ReadsCode bytes.now result }
{
    read_unit(alloc, bytes)
}
