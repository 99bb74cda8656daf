//! The uses of expressions, declarations and structure expressions.

ghost use Rattle.std.specs.Prelude.{◌≡◌, IfOk, OnOk, map};
ghost use Rattle.skeletons.specs.Scopes.{all_uses, sequence, joined};
ghost use Rattle.skeletons.specs.Uses.{exp_uses, exp_field_uses, rule_uses, dec_brings, str_uses, str_binding};
ghost use Rattle.skeletons.specs.Walks.{noted, declared};

use crate::noted::note_all;
use crate::walk::Walk;
use crate::walk_pat::walk_pat;
use crate::walk_sig::walk_sig;
use crate::walk_ty::walk_ty;
use cm_base::{Namespace, NoMemory};
use sml_trees::{Dec, Exp, ExpField, Rule, StrBind, StrExp};

#[cycle(walk_exp)]
#[tactic(auto, using(crate::proofs::Chains::chains))]
fn walk_exp(walk: &mut Walk, exp: &Exp) -> Result<(), NoMemory>
    ensures { OnOk result (walk.new ≡ noted walk.old (exp_uses exp.now)) }
{
    match exp {
        Exp::Int(_, _) | Exp::Str(_, _) | Exp::Char(_, _) => Ok(()),
        Exp::Long(long, _) => walk.qualifier(long),
        Exp::Record(fields, _) => walk_exp_fields(walk, fields.as_slice()),
        Exp::Let(dec, exp, _) => {
            let mark = walk.mark();
            walk_dec(walk, dec.get())?;
            walk_exp(walk, exp.get())?;
            walk.close(mark);
            Ok(())
        }
        Exp::App(function, arg, _) => {
            walk_exp(walk, function.get())?;
            walk_exp(walk, arg.get())
        }
        Exp::Typed(exp, ty, _) => {
            walk_exp(walk, exp.get())?;
            walk_ty(walk, ty)
        }
        Exp::Handle(exp, rules, _) => {
            walk_exp(walk, exp.get())?;
            walk_rules(walk, rules.as_slice())
        }
        Exp::Raise(exp, _) => walk_exp(walk, exp.get()),
        Exp::Fn(rules, _) => walk_rules(walk, rules.as_slice()),
    }
}

#[cycle(walk_exp)]
#[tactic(auto, using(crate::proofs::Chains::chains))]
fn walk_exp_fields(walk: &mut Walk, fields: &[ExpField]) -> Result<(), NoMemory>
    ensures { OnOk result (walk.new ≡ noted walk.old (all_uses (map exp_field_uses fields.now))) }
{
    for field in fields {
        walk_exp(walk, &field.exp)?;
    }
    Ok(())
}

#[cycle(walk_exp)]
#[tactic(auto, using(crate::proofs::Chains::chains))]
fn walk_rules(walk: &mut Walk, rules: &[Rule]) -> Result<(), NoMemory>
    ensures { OnOk result (walk.new ≡ noted walk.old (all_uses (map rule_uses rules.now))) }
{
    for rule in rules {
        walk_pat(walk, &rule.pat)?;
        walk_exp(walk, &rule.exp)?;
    }
    Ok(())
}

/// Walks over a declaration, and says whether it opens anything for what stands after it.
#[cycle(walk_exp)]
#[tactic(auto, using(crate::proofs::Chains::chains))]
fn walk_dec(walk: &mut Walk, dec: &Dec) -> Result<bool, NoMemory>
    ensures walked { OnOk result (walk.new ≡ declared walk.old (dec_brings dec.now)) }
    ensures opens { IfOk result (λ opens. opens ≡ (dec_brings dec.now).opens) }
{
    match dec {
        Dec::Val(_, binds, recs, _) => {
            walk_rules(walk, binds.as_slice())?;
            walk_rules(walk, recs.as_slice())?;
            Ok(false)
        }
        Dec::Types(binds, _) => {
            note_all(walk, binds)?;
            Ok(false)
        }
        Dec::Datatypes(binds, _) => {
            note_all(walk, binds)?;
            Ok(false)
        }
        Dec::Replication(_, long, _) => {
            walk.qualifier(long)?;
            Ok(false)
        }
        Dec::Exceptions(binds, _) => {
            note_all(walk, binds)?;
            Ok(false)
        }
        Dec::Local(hidden, dec, _) => {
            let start = walk.mark();
            walk_dec(walk, hidden.get())?;
            let middle = walk.mark();
            let opens = walk_dec(walk, dec.get())?;
            walk.shut(start, middle, opens);
            Ok(opens)
        }
        Dec::Open(longs, _) => walk.open(longs),
        Dec::Sequence(decs, _) => walk_decs(walk, decs.as_slice()),
        Dec::Structures(binds, _) => {
            walk_str_binds(walk, binds.as_slice())?;
            Ok(false)
        }
    }
}

#[cycle(walk_exp)]
#[tactic(auto, using(crate::proofs::Chains::chains))]
fn walk_decs(walk: &mut Walk, decs: &[Dec]) -> Result<bool, NoMemory>
    ensures walked { OnOk result (walk.new ≡ declared walk.old (sequence (map dec_brings decs.now))) }
    ensures opens { IfOk result (λ opens. opens ≡ (sequence (map dec_brings decs.now)).opens) }
{
    let mut opens = false;
    for dec in decs {
        let opened = walk_dec(walk, dec)?;
        opens = opens || opened;
    }
    Ok(opens)
}

#[cycle(walk_exp)]
#[tactic(auto, using(crate::proofs::Chains::chains))]
pub(crate) fn walk_str(walk: &mut Walk, str: &StrExp) -> Result<(), NoMemory>
    ensures { OnOk result (walk.new ≡ noted walk.old (str_uses str.now)) }
{
    match str {
        StrExp::Struct(dec, _) => {
            let mark = walk.mark();
            walk_dec(walk, dec.get())?;
            walk.close(mark);
            Ok(())
        }
        StrExp::Named(long, _) => walk.structure(long),
        StrExp::Transparent(str, sig, _) => {
            walk_str(walk, str.get())?;
            walk_sig(walk, sig)
        }
        StrExp::Opaque(str, sig, _) => {
            walk_str(walk, str.get())?;
            walk_sig(walk, sig)
        }
        StrExp::Functor(name, arg, _) => {
            walk.name(Namespace::Functor, name)?;
            walk_str(walk, arg.get())
        }
        StrExp::Within(dec, str, _) => {
            let mark = walk.mark();
            walk_dec(walk, dec.get())?;
            walk_str(walk, str.get())?;
            walk.close(mark);
            Ok(())
        }
    }
}

#[cycle(walk_exp)]
#[tactic(auto, using(crate::proofs::Chains::chains))]
pub(crate) fn walk_str_binds(walk: &mut Walk, binds: &[StrBind]) -> Result<(), NoMemory>
    ensures { OnOk result (walk.new ≡ declared walk.old (joined (map str_binding binds.now))) }
{
    walk_strs(walk, binds)?;
    for bind in binds {
        walk.bind(Namespace::Structure, &bind.name)?;
    }
    Ok(())
}

#[cycle(walk_exp)]
#[tactic(auto, using(crate::proofs::Chains::chains))]
fn walk_strs(walk: &mut Walk, binds: &[StrBind]) -> Result<(), NoMemory>
    ensures { OnOk result (walk.new ≡ noted walk.old ((joined (map str_binding binds.now)).uses)) }
{
    for bind in binds {
        walk_str(walk, &bind.body)?;
    }
    Ok(())
}
