//! A unit as its code.

ghost use Rattle.std.specs.Prelude.{◌≡◌, ◌++◌, IfOk};
ghost use Rattle.sml_syntax.specs.Code.{code_of};

use crate::parts::{Spelled, write_list, write_tagged_list};
use crate::write_exp::{write_str, write_str_binds};
use crate::write_sig::{write_sig, write_sig_binds};
use cm_base::{NoMemory, Text};
use cm_bytes::Writer;
use sml_trees::{BareUnit, FunBind, FunsigBind, TopDec};
use std::alloc::Global;

impl Spelled for FunBind {
    ghost use Rattle.sml_syntax.specs.Code.{fun_bind_of};

    ghost bytes = { fun_bind_of };

    fn write(&self, out: &mut Writer) -> Result<(), NoMemory> {
        self.name.write(out)?;
        self.param.write(out)?;
        write_sig(out, &self.param_sig)?;
        write_str(out, &self.body)
    }
}

impl Spelled for FunsigBind {
    ghost use Rattle.sml_syntax.specs.Code.{funsig_bind_of};

    ghost bytes = { funsig_bind_of };

    fn write(&self, out: &mut Writer) -> Result<(), NoMemory> {
        self.name.write(out)?;
        self.param.write(out)?;
        write_sig(out, &self.param_sig)?;
        write_sig(out, &self.result_sig)
    }
}

impl Spelled for TopDec {
    ghost use Rattle.sml_syntax.specs.Code.{topdec_of};

    ghost bytes = { topdec_of };

    fn write(&self, out: &mut Writer) -> Result<(), NoMemory> {
        match self {
            TopDec::Structures(binds, _) => {
                out.u8(0x80)?;
                write_str_binds(out, binds.as_slice())
            }
            TopDec::Signatures(binds, _) => {
                out.u8(0x81)?;
                write_sig_binds(out, binds.as_slice())
            }
            TopDec::Functors(binds, _) => write_tagged_list(out, 0x82, binds),
            TopDec::Funsigs(binds, _) => write_tagged_list(out, 0x83, binds),
        }
    }
}

/// The code of a unit: its declarations as bytes, without the places.
#[tactic(auto, unfolding(crate::specs::Code::code_of))]
pub fn write_code(alloc: Global, unit: &BareUnit) -> Result<Text, NoMemory>
    ensures { IfOk result (λ code. code ≡ code_of unit.now) }
{
    let mut out = Writer::new(alloc);
    out.raw(b"CMC1")?;
    write_list(&mut out, &unit.topdecs)?;
    Ok(out.finish())
}
