//! Patterns as bytes.

ghost use Rattle.std.specs.Prelude.{◌≡◌, ◌++◌, OnOk};
ghost use Rattle.cm_bytes.specs.Fields.{list_of};
ghost use Rattle.sml_syntax.specs.Code.{pat_of, pat_field_of};

use crate::parts::{Spelled, write_count, write_tagged};
use crate::write_ty::{write_optional_ty, write_ty};
use cm_base::NoMemory;
use cm_bytes::Writer;
use sml_trees::{Pat, PatField};

#[cycle(write_pat)]
#[tactic(auto, using(crate::proofs::Level::pat_spelled))]
pub fn write_pat(out: &mut Writer, pat: &Pat) -> Result<(), NoMemory>
    ensures { OnOk result (out.new ≡ out.old ++ pat_of pat.now) }
{
    match pat {
        Pat::Wild(_) => out.u8(0x20),
        Pat::Int(n, _) => write_tagged(out, 0x21, n),
        Pat::Str(text, _) => write_tagged(out, 0x22, text),
        Pat::Char(byte, _) => write_tagged(out, 0x23, byte),
        Pat::Long(long, _) => write_tagged(out, 0x24, long),
        Pat::Record(fields, _) => {
            out.u8(0x25)?;
            write_pat_fields(out, fields.as_slice())
        }
        Pat::Con(long, arg, _) => {
            write_tagged(out, 0x26, long)?;
            write_pat(out, arg.get())
        }
        Pat::Typed(pat, ty, _) => {
            out.u8(0x27)?;
            write_pat(out, pat.get())?;
            write_ty(out, ty)
        }
        Pat::As(name, ty, pat, _) => {
            write_tagged(out, 0x28, name)?;
            write_optional_ty(out, ty)?;
            write_pat(out, pat.get())
        }
    }
}

#[cycle(write_pat)]
#[tactic(auto, unfolding(cm_bytes::specs::Fields::list_of))]
fn write_pat_fields(out: &mut Writer, fields: &[PatField]) -> Result<(), NoMemory>
    ensures { OnOk result (out.new ≡ out.old ++ list_of pat_field_of fields.now) }
{
    write_count(out, fields.len())?;
    for field in fields {
        field.label.write(out)?;
        write_pat(out, &field.pat)?;
    }
    Ok(())
}
