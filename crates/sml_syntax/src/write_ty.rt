//! Types, and bindings of names and types, as bytes.

ghost use Rattle.std.specs.Prelude.{◌≡◌, ◌++◌, OnOk};
ghost use Rattle.cm_bytes.specs.Fields.{list_of};
ghost use Rattle.sml_syntax.specs.Code.{option_of, ty_of, ty_field_of};

use crate::parts::{Spelled, write_count, write_list, write_tagged};
use cm_base::NoMemory;
use cm_bytes::Writer;
use sml_trees::{ConBind, DatBind, ExBind, ExBody, Ty, TyField, TypBind, TypDesc, ValDesc};

#[cycle(write_ty)]
#[tactic(auto, using(crate::proofs::Level::ty_spelled))]
pub fn write_ty(out: &mut Writer, ty: &Ty) -> Result<(), NoMemory>
    ensures { OnOk result (out.new ≡ out.old ++ ty_of ty.now) }
{
    match ty {
        Ty::Var(name, _) => write_tagged(out, 0x30, name),
        Ty::Record(fields, _) => {
            out.u8(0x31)?;
            write_ty_fields(out, fields.as_slice())
        }
        Ty::Named(args, long, _) => {
            out.u8(0x32)?;
            write_tys(out, args.as_slice())?;
            long.write(out)
        }
        Ty::Arrow(from, to, _) => {
            out.u8(0x33)?;
            write_ty(out, from.get())?;
            write_ty(out, to.get())
        }
    }
}

#[cycle(write_ty)]
#[tactic(auto, unfolding(cm_bytes::specs::Fields::list_of))]
fn write_tys(out: &mut Writer, tys: &[Ty]) -> Result<(), NoMemory>
    ensures { OnOk result (out.new ≡ out.old ++ list_of ty_of tys.now) }
{
    write_count(out, tys.len())?;
    for ty in tys {
        write_ty(out, ty)?;
    }
    Ok(())
}

#[cycle(write_ty)]
#[tactic(auto, unfolding(cm_bytes::specs::Fields::list_of))]
fn write_ty_fields(out: &mut Writer, fields: &[TyField]) -> Result<(), NoMemory>
    ensures { OnOk result (out.new ≡ out.old ++ list_of ty_field_of fields.now) }
{
    write_count(out, fields.len())?;
    for field in fields {
        field.label.write(out)?;
        write_ty(out, &field.ty)?;
    }
    Ok(())
}

pub fn write_optional_ty(out: &mut Writer, ty: &Option<Ty>) -> Result<(), NoMemory>
    ensures { OnOk result (out.new ≡ out.old ++ option_of ty_of ty.now) }
{
    match ty {
        None => out.u8(0),
        Some(ty) => {
            out.u8(1)?;
            write_ty(out, ty)
        }
    }
}

impl Spelled for TypBind {
    ghost use Rattle.sml_syntax.specs.Code.{typ_bind_of};

    ghost bytes = { typ_bind_of };

    fn write(&self, out: &mut Writer) -> Result<(), NoMemory> {
        write_list(out, &self.tyvars)?;
        self.name.write(out)?;
        write_ty(out, &self.ty)
    }
}

impl Spelled for ConBind {
    ghost use Rattle.sml_syntax.specs.Code.{con_bind_of};

    ghost bytes = { con_bind_of };

    fn write(&self, out: &mut Writer) -> Result<(), NoMemory> {
        self.name.write(out)?;
        write_optional_ty(out, &self.arg)
    }
}

impl Spelled for DatBind {
    ghost use Rattle.sml_syntax.specs.Code.{dat_bind_of};

    ghost bytes = { dat_bind_of };

    fn write(&self, out: &mut Writer) -> Result<(), NoMemory> {
        write_list(out, &self.tyvars)?;
        self.name.write(out)?;
        write_list(out, &self.cons)
    }
}

impl Spelled for ExBody {
    ghost use Rattle.sml_syntax.specs.Code.{ex_body_of};

    ghost bytes = { ex_body_of };

    fn write(&self, out: &mut Writer) -> Result<(), NoMemory> {
        match self {
            ExBody::Plain => out.u8(0),
            ExBody::Of(ty) => {
                out.u8(1)?;
                write_ty(out, ty)
            }
            ExBody::Copy(long) => write_tagged(out, 2, long),
        }
    }
}

impl Spelled for ExBind {
    ghost use Rattle.sml_syntax.specs.Code.{ex_bind_of};

    ghost bytes = { ex_bind_of };

    fn write(&self, out: &mut Writer) -> Result<(), NoMemory> {
        self.name.write(out)?;
        self.body.write(out)
    }
}

impl Spelled for ValDesc {
    ghost use Rattle.sml_syntax.specs.Code.{val_desc_of};

    ghost bytes = { val_desc_of };

    fn write(&self, out: &mut Writer) -> Result<(), NoMemory> {
        self.name.write(out)?;
        write_ty(out, &self.ty)
    }
}

impl Spelled for TypDesc {
    ghost use Rattle.sml_syntax.specs.Code.{typ_desc_of};

    ghost bytes = { typ_desc_of };

    fn write(&self, out: &mut Writer) -> Result<(), NoMemory> {
        write_list(out, &self.tyvars)?;
        self.name.write(out)
    }
}
