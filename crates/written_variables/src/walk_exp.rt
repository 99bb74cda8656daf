//! The type variables of expressions, rules and declarations. A `val` inside them keeps its own.

ghost use Rattle.std.specs.Prelude.{◌≡◌, ◌++◌, map, OnOk};
ghost use Rattle.bare_phrases.specs.PhraseOf.{ex_body_phrase, ex_phrase, exp_phrase, exp_field_phrase, exp_fields, rule_phrase, rules_of, dec_phrase, dec_phrases};
ghost use Rattle.static_semantics.specs.WrittenVariables.{tyvars_of_ex_body, tyvars_of_exceptions, tyvars_of_exp, tyvars_of_exp_fields, tyvars_of_rules, tyvars_of_dec, tyvars_of_decs};

use crate::walk_pat::walk_pat;
use crate::walk_ty::walk_ty;
use cm_base::NoMemory;
use sml_trees::{Dec, ExBind, ExBody, Exp, ExpField, Name, Rule};

/// Notes the type variables of what an exception is.
fn walk_ex_body(met: &mut Vec<Name>, body: &ExBody) -> Result<(), NoMemory>
    ensures { OnOk result (met.new.items ≡ met.old.items ++ tyvars_of_ex_body (ex_body_phrase body.now)) }
{
    match body {
        ExBody::Of(ty) => walk_ty(met, ty),
        ExBody::Plain | ExBody::Copy(_) => Ok(()),
    }
}

/// Notes the type variables of exceptions that are bound.
#[tactic(auto, using(crate::proofs::Forms::append_forms))]
fn walk_exceptions(met: &mut Vec<Name>, binds: &[ExBind]) -> Result<(), NoMemory>
    ensures { OnOk result (met.new.items ≡ met.old.items ++ tyvars_of_exceptions (map ex_phrase binds.now)) }
{
    for bind in binds {
        walk_ex_body(met, &bind.body)?;
    }
    Ok(())
}

/// Notes the type variables of an expression, from left to right.
#[cycle(walk_exp)]
#[tactic(auto, using(crate::proofs::Forms::forms))]
fn walk_exp(met: &mut Vec<Name>, exp: &Exp) -> Result<(), NoMemory>
    ensures { OnOk result (met.new.items ≡ met.old.items ++ tyvars_of_exp (exp_phrase exp.now)) }
{
    match exp {
        Exp::Int(_, _) | Exp::Str(_, _) | Exp::Char(_, _) | Exp::Long(_, _) => Ok(()),
        Exp::Record(fields, _) => walk_exp_fields(met, fields.as_slice()),
        Exp::Let(dec, body, _) => {
            walk_dec(met, dec.get())?;
            walk_exp(met, body.get())
        }
        Exp::App(function, argument, _) => {
            walk_exp(met, function.get())?;
            walk_exp(met, argument.get())
        }
        Exp::Typed(exp, ty, _) => {
            walk_exp(met, exp.get())?;
            walk_ty(met, ty)
        }
        Exp::Handle(exp, rules, _) => {
            walk_exp(met, exp.get())?;
            walk_rules(met, rules.as_slice())
        }
        Exp::Raise(exp, _) => walk_exp(met, exp.get()),
        Exp::Fn(rules, _) => walk_rules(met, rules.as_slice()),
    }
}

#[cycle(walk_exp)]
#[tactic(auto, using(crate::proofs::Forms::forms))]
fn walk_exp_fields(met: &mut Vec<Name>, fields: &[ExpField]) -> Result<(), NoMemory>
    ensures { OnOk result (met.new.items
        ≡ met.old.items ++ tyvars_of_exp_fields (exp_fields (map exp_field_phrase fields.now))) }
{
    for field in fields {
        walk_exp(met, &field.exp)?;
    }
    Ok(())
}

/// Notes the type variables of rules, or of the bindings of a `val`.
#[cycle(walk_exp)]
#[tactic(auto, using(crate::proofs::Forms::forms))]
pub(crate) fn walk_rules(met: &mut Vec<Name>, rules: &[Rule]) -> Result<(), NoMemory>
    ensures { OnOk result (met.new.items ≡ met.old.items ++ tyvars_of_rules (rules_of (map rule_phrase rules.now))) }
{
    for rule in rules {
        walk_pat(met, &rule.pat)?;
        walk_exp(met, &rule.exp)?;
    }
    Ok(())
}

/// Notes the type variables of a declaration.
#[cycle(walk_dec)]
#[tactic(auto, using(crate::proofs::Forms::forms))]
fn walk_dec(met: &mut Vec<Name>, dec: &Dec) -> Result<(), NoMemory>
    ensures { OnOk result (met.new.items ≡ met.old.items ++ tyvars_of_dec (dec_phrase dec.now)) }
{
    match dec {
        Dec::Exceptions(binds, _) => walk_exceptions(met, binds.as_slice()),
        Dec::Local(hidden, shown, _) => {
            walk_dec(met, hidden.get())?;
            walk_dec(met, shown.get())
        }
        Dec::Sequence(decs, _) => walk_decs(met, decs.as_slice()),
        Dec::Val(_, _, _, _)
        | Dec::Types(_, _)
        | Dec::Datatypes(_, _)
        | Dec::Replication(_, _, _)
        | Dec::Open(_, _)
        | Dec::Structures(_, _) => Ok(()),
    }
}

#[cycle(walk_dec)]
#[tactic(auto, using(crate::proofs::Forms::forms))]
fn walk_decs(met: &mut Vec<Name>, decs: &[Dec]) -> Result<(), NoMemory>
    ensures { OnOk result (met.new.items ≡ met.old.items ++ tyvars_of_decs (dec_phrases (map dec_phrase decs.now))) }
{
    for dec in decs {
        walk_dec(met, dec)?;
    }
    Ok(())
}
