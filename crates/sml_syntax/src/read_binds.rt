//! Bindings of names and types read from bytes.

ghost use Rattle.std.specs.Prelude.{◌≡◌};
ghost use Rattle.sml_syntax.specs.ReadingBinds.{ex_body_table};
ghost use Rattle.sml_syntax.specs.Took.{Took};

use crate::fault::CodeFault;
use crate::read_parts::{Readable, read_byte, read_list, read_long, read_name};
use crate::read_ty::{read_optional_ty, read_ty};
use cm_bytes::Reader;
use sml_trees::{ConBind, DatBind, ExBind, ExBody, TypBind, TypDesc, ValDesc};
use std::alloc::Global;

impl Readable for TypBind {
    ghost use Rattle.sml_syntax.specs.ReadingBinds.{typ_bind_at};

    ghost step = { typ_bind_at };

    #[tactic(auto, unfolding(crate::specs::ReadingBinds::typ_bind_at, crate::specs::Steps::made, crate::specs::Steps::both))]
    fn read(alloc: Global, reader: &mut Reader, depth: u32) -> Result<Self, CodeFault> {
        let tyvars = read_list(alloc, reader, depth)?;
        let name = read_name(alloc, reader)?;
        let ty = read_ty(alloc, reader, depth)?;
        Ok(TypBind { tyvars, name, ty })
    }
}

impl Readable for ConBind {
    ghost use Rattle.sml_syntax.specs.ReadingBinds.{con_bind_at};

    ghost step = { con_bind_at };

    #[tactic(auto, unfolding(crate::specs::ReadingBinds::con_bind_at, crate::specs::Steps::made, crate::specs::Steps::both))]
    fn read(alloc: Global, reader: &mut Reader, depth: u32) -> Result<Self, CodeFault> {
        let name = read_name(alloc, reader)?;
        let arg = read_optional_ty(alloc, reader, depth)?;
        Ok(ConBind { name, arg })
    }
}

impl Readable for DatBind {
    ghost use Rattle.sml_syntax.specs.ReadingBinds.{dat_bind_at};

    ghost step = { dat_bind_at };

    #[tactic(auto, unfolding(crate::specs::ReadingBinds::dat_bind_at, crate::specs::Steps::made, crate::specs::Steps::both))]
    fn read(alloc: Global, reader: &mut Reader, depth: u32) -> Result<Self, CodeFault> {
        let tyvars = read_list(alloc, reader, depth)?;
        let name = read_name(alloc, reader)?;
        let cons = read_list(alloc, reader, depth)?;
        Ok(DatBind { tyvars, name, cons })
    }
}

impl Readable for ExBody {
    ghost use Rattle.sml_syntax.specs.ReadingBinds.{ex_body_at};

    ghost step = { ex_body_at };

    #[tactic(auto, unfolding(crate::specs::ReadingBinds::ex_body_at, crate::specs::Steps::tagged))]
    fn read(alloc: Global, reader: &mut Reader, depth: u32) -> Result<Self, CodeFault> {
        let kind = read_byte(reader)?;
        read_ex_body_parts(alloc, reader, depth, kind)
    }
}

/// What stands behind the byte that says what an exception is.
#[tactic(auto, unfolding(crate::specs::Steps::or_tag, crate::specs::Steps::made))]
fn read_ex_body_parts(
    alloc: Global,
    reader: &mut Reader,
    depth: u32,
    kind: u8,
) -> Result<ExBody, CodeFault>
    ensures { Took (ex_body_table depth kind reader.old) result reader.new }
{
    match kind {
        0 => Ok(ExBody::Plain),
        1 => Ok(ExBody::Of(read_ty(alloc, reader, depth)?)),
        2 => Ok(ExBody::Copy(read_long(alloc, reader)?)),
        _ => Err(CodeFault::BadCode),
    }
}

impl Readable for ExBind {
    ghost use Rattle.sml_syntax.specs.ReadingBinds.{ex_bind_at};

    ghost step = { ex_bind_at };

    #[tactic(auto, unfolding(crate::specs::ReadingBinds::ex_bind_at, crate::specs::Steps::made, crate::specs::Steps::both))]
    fn read(alloc: Global, reader: &mut Reader, depth: u32) -> Result<Self, CodeFault> {
        let name = read_name(alloc, reader)?;
        let body = ExBody::read(alloc, reader, depth)?;
        Ok(ExBind { name, body })
    }
}

impl Readable for ValDesc {
    ghost use Rattle.sml_syntax.specs.ReadingBinds.{val_desc_at};

    ghost step = { val_desc_at };

    #[tactic(auto, unfolding(crate::specs::ReadingBinds::val_desc_at, crate::specs::Steps::made, crate::specs::Steps::both))]
    fn read(alloc: Global, reader: &mut Reader, depth: u32) -> Result<Self, CodeFault> {
        let name = read_name(alloc, reader)?;
        let ty = read_ty(alloc, reader, depth)?;
        Ok(ValDesc { name, ty })
    }
}

impl Readable for TypDesc {
    ghost use Rattle.sml_syntax.specs.ReadingBinds.{typ_desc_at};

    ghost step = { typ_desc_at };

    #[tactic(auto, unfolding(crate::specs::ReadingBinds::typ_desc_at, crate::specs::Steps::made, crate::specs::Steps::both))]
    fn read(alloc: Global, reader: &mut Reader, depth: u32) -> Result<Self, CodeFault> {
        let tyvars = read_list(alloc, reader, depth)?;
        let name = read_name(alloc, reader)?;
        Ok(TypDesc { tyvars, name })
    }
}
