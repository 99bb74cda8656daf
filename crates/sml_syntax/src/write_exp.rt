//! Expressions, declarations and structure expressions as bytes.

ghost use Rattle.std.specs.Prelude.{◌≡◌, ◌++◌, OnOk};
ghost use Rattle.cm_bytes.specs.Fields.{list_of};
ghost use Rattle.sml_syntax.specs.Code.{exp_of, exp_field_of, rule_of, dec_of, str_of, str_bind_of};

use crate::parts::{Spelled, write_count, write_replication, write_tagged, write_tagged_list};
use crate::write_pat::write_pat;
use crate::write_sig::write_sig;
use crate::write_ty::write_ty;
use cm_base::NoMemory;
use cm_bytes::Writer;
use sml_trees::{Dec, Exp, ExpField, Rule, StrBind, StrExp};

#[cycle(write_exp)]
#[tactic(auto, using(crate::proofs::Level::exp_spelled))]
fn write_exp(out: &mut Writer, exp: &Exp) -> Result<(), NoMemory>
    ensures { OnOk result (out.new ≡ out.old ++ exp_of exp.now) }
{
    match exp {
        Exp::Int(n, _) => write_tagged(out, 0x10, n),
        Exp::Str(text, _) => write_tagged(out, 0x11, text),
        Exp::Char(byte, _) => write_tagged(out, 0x12, byte),
        Exp::Long(long, _) => write_tagged(out, 0x13, long),
        Exp::Record(fields, _) => {
            out.u8(0x14)?;
            write_exp_fields(out, fields.as_slice())
        }
        Exp::Let(dec, exp, _) => {
            out.u8(0x15)?;
            write_dec(out, dec.get())?;
            write_exp(out, exp.get())
        }
        Exp::App(function, arg, _) => {
            out.u8(0x16)?;
            write_exp(out, function.get())?;
            write_exp(out, arg.get())
        }
        Exp::Typed(exp, ty, _) => {
            out.u8(0x17)?;
            write_exp(out, exp.get())?;
            write_ty(out, ty)
        }
        Exp::Handle(exp, rules, _) => {
            out.u8(0x18)?;
            write_exp(out, exp.get())?;
            write_rules(out, rules.as_slice())
        }
        Exp::Raise(exp, _) => {
            out.u8(0x19)?;
            write_exp(out, exp.get())
        }
        Exp::Fn(rules, _) => {
            out.u8(0x1A)?;
            write_rules(out, rules.as_slice())
        }
    }
}

#[cycle(write_exp)]
#[tactic(auto, unfolding(cm_bytes::specs::Fields::list_of))]
fn write_exp_fields(out: &mut Writer, fields: &[ExpField]) -> Result<(), NoMemory>
    ensures { OnOk result (out.new ≡ out.old ++ list_of exp_field_of fields.now) }
{
    write_count(out, fields.len())?;
    for field in fields {
        field.label.write(out)?;
        write_exp(out, &field.exp)?;
    }
    Ok(())
}

#[cycle(write_exp)]
#[tactic(auto, unfolding(cm_bytes::specs::Fields::list_of))]
fn write_rules(out: &mut Writer, rules: &[Rule]) -> Result<(), NoMemory>
    ensures { OnOk result (out.new ≡ out.old ++ list_of rule_of rules.now) }
{
    write_count(out, rules.len())?;
    for rule in rules {
        write_pat(out, &rule.pat)?;
        write_exp(out, &rule.exp)?;
    }
    Ok(())
}

#[cycle(write_exp)]
#[tactic(auto, using(crate::proofs::Level::exp_spelled))]
fn write_dec(out: &mut Writer, dec: &Dec) -> Result<(), NoMemory>
    ensures { OnOk result (out.new ≡ out.old ++ dec_of dec.now) }
{
    match dec {
        Dec::Val(tyvars, binds, recs, _) => {
            write_tagged_list(out, 0x40, tyvars)?;
            write_rules(out, binds.as_slice())?;
            write_rules(out, recs.as_slice())
        }
        Dec::Types(binds, _) => write_tagged_list(out, 0x41, binds),
        Dec::Datatypes(binds, _) => write_tagged_list(out, 0x42, binds),
        Dec::Replication(name, long, _) => write_replication(out, 0x43, name, long),
        Dec::Exceptions(binds, _) => write_tagged_list(out, 0x44, binds),
        Dec::Local(hidden, dec, _) => {
            out.u8(0x45)?;
            write_dec(out, hidden.get())?;
            write_dec(out, dec.get())
        }
        Dec::Open(longs, _) => write_tagged_list(out, 0x46, longs),
        Dec::Sequence(decs, _) => {
            out.u8(0x47)?;
            write_decs(out, decs.as_slice())
        }
        Dec::Structures(binds, _) => {
            out.u8(0x48)?;
            write_str_binds(out, binds.as_slice())
        }
    }
}

#[cycle(write_exp)]
#[tactic(auto, unfolding(cm_bytes::specs::Fields::list_of))]
fn write_decs(out: &mut Writer, decs: &[Dec]) -> Result<(), NoMemory>
    ensures { OnOk result (out.new ≡ out.old ++ list_of dec_of decs.now) }
{
    write_count(out, decs.len())?;
    for dec in decs {
        write_dec(out, dec)?;
    }
    Ok(())
}

#[cycle(write_exp)]
#[tactic(auto, using(crate::proofs::Level::exp_spelled))]
pub fn write_str(out: &mut Writer, str: &StrExp) -> Result<(), NoMemory>
    ensures { OnOk result (out.new ≡ out.old ++ str_of str.now) }
{
    match str {
        StrExp::Struct(dec, _) => {
            out.u8(0x50)?;
            write_dec(out, dec.get())
        }
        StrExp::Named(long, _) => write_tagged(out, 0x51, long),
        StrExp::Transparent(str, sig, _) => {
            out.u8(0x52)?;
            write_str(out, str.get())?;
            write_sig(out, sig)
        }
        StrExp::Opaque(str, sig, _) => {
            out.u8(0x53)?;
            write_str(out, str.get())?;
            write_sig(out, sig)
        }
        StrExp::Functor(name, arg, _) => {
            write_tagged(out, 0x54, name)?;
            write_str(out, arg.get())
        }
        StrExp::Within(dec, str, _) => {
            out.u8(0x55)?;
            write_dec(out, dec.get())?;
            write_str(out, str.get())
        }
    }
}

#[cycle(write_exp)]
#[tactic(auto, unfolding(cm_bytes::specs::Fields::list_of))]
pub fn write_str_binds(out: &mut Writer, binds: &[StrBind]) -> Result<(), NoMemory>
    ensures { OnOk result (out.new ≡ out.old ++ list_of str_bind_of binds.now) }
{
    write_count(out, binds.len())?;
    for bind in binds {
        bind.name.write(out)?;
        write_str(out, &bind.body)?;
    }
    Ok(())
}
