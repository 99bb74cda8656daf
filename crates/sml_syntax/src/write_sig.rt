//! Signature expressions and specifications as bytes.

ghost use Rattle.std.specs.Prelude.{◌≡◌, ◌++◌, OnOk};
ghost use Rattle.cm_bytes.specs.Fields.{list_of};
ghost use Rattle.sml_syntax.specs.Code.{sig_of, spec_of, sig_bind_of};

use crate::parts::{
    Spelled, write_count, write_list, write_replication, write_tagged, write_tagged_list,
};
use crate::write_ty::write_ty;
use cm_base::NoMemory;
use cm_bytes::Writer;
use sml_trees::{SigBind, SigExp, Spec};

#[cycle(write_sig)]
#[tactic(auto, using(crate::proofs::Level::sig_spelled))]
pub fn write_sig(out: &mut Writer, sig: &SigExp) -> Result<(), NoMemory>
    ensures { OnOk result (out.new ≡ out.old ++ sig_of sig.now) }
{
    match sig {
        SigExp::Sig(spec, _) => {
            out.u8(0x60)?;
            write_spec(out, spec.get())
        }
        SigExp::Named(name, _) => write_tagged(out, 0x61, name),
        SigExp::Where(sig, tyvars, long, ty, _) => {
            out.u8(0x62)?;
            write_sig(out, sig.get())?;
            write_list(out, tyvars)?;
            long.write(out)?;
            write_ty(out, ty)
        }
    }
}

#[cycle(write_sig)]
#[tactic(auto, using(crate::proofs::Level::sig_spelled))]
fn write_spec(out: &mut Writer, spec: &Spec) -> Result<(), NoMemory>
    ensures { OnOk result (out.new ≡ out.old ++ spec_of spec.now) }
{
    match spec {
        Spec::Vals(descs, _) => write_tagged_list(out, 0x70, descs),
        Spec::Types(descs, _) => write_tagged_list(out, 0x71, descs),
        Spec::Eqtypes(descs, _) => write_tagged_list(out, 0x72, descs),
        Spec::Datatypes(binds, _) => write_tagged_list(out, 0x73, binds),
        Spec::Replication(name, long, _) => write_replication(out, 0x74, name, long),
        Spec::Exceptions(descs, _) => write_tagged_list(out, 0x75, descs),
        Spec::Structures(descs, _) => {
            out.u8(0x76)?;
            write_sig_binds(out, descs.as_slice())
        }
        Spec::Include(sig, _) => {
            out.u8(0x77)?;
            write_sig(out, sig.get())
        }
        Spec::Sequence(specs, _) => {
            out.u8(0x78)?;
            write_specs(out, specs.as_slice())
        }
    }
}

#[cycle(write_sig)]
#[tactic(auto, unfolding(cm_bytes::specs::Fields::list_of))]
pub fn write_sig_binds(out: &mut Writer, binds: &[SigBind]) -> Result<(), NoMemory>
    ensures { OnOk result (out.new ≡ out.old ++ list_of sig_bind_of binds.now) }
{
    write_count(out, binds.len())?;
    for bind in binds {
        bind.name.write(out)?;
        write_sig(out, &bind.sig)?;
    }
    Ok(())
}

#[cycle(write_sig)]
#[tactic(auto, unfolding(cm_bytes::specs::Fields::list_of))]
fn write_specs(out: &mut Writer, specs: &[Spec]) -> Result<(), NoMemory>
    ensures { OnOk result (out.new ≡ out.old ++ list_of spec_of specs.now) }
{
    write_count(out, specs.len())?;
    for spec in specs {
        write_spec(out, spec)?;
    }
    Ok(())
}
