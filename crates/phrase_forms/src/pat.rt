//! Patterns.

ghost use Rattle.std.specs.Prelude.{◌≡◌, None, IfOk, map};
ghost use Rattle.std.specs.Option.{option_map, unwrap_or};
ghost use Rattle.bare_forms.specs.Types.{bare_ty};
ghost use Rattle.bare_forms.specs.Patterns as spec;
ghost use Rattle.bare_forms.specs.Patterns.{joined_pat};
ghost use Rattle.bare_forms.specs.Runs.{applied_to, run_of};
ghost use Rattle.sml_trees.specs.declared.pat.Pat.TheVariants as bare;

use crate::ty::{to_optional_ty, to_ty};
use bare_forms::held::{boxed_beside, pushed, with};
use bare_forms::joined::pair_pat;
use bare_forms::name::{copy_long, copy_name, label, long_of_name, long_of_text, place};
use bare_forms::placed::PlacedPat;
use bare_forms::run::{bind_all, operator_of};
use cm_base::{List, NoMemory};
use sml_trees::held::both;
use sml_trees::{At, Constant, FullPat, FullPatField, FullPatItem, FullTy, Name, Pat, PatField};
use std::alloc::Global;

fn constant_pat(constant: &Constant, at: At) -> Result<Pat, NoMemory>
    ensures { IfOk result (λ made. made ≡ spec.constant_pat constant.now at) }
{
    match constant {
        Constant::Int(n) => Ok(Pat::Int(*n, at)),
        Constant::Str(text) => Ok(Pat::Str(text.copy()?, at)),
        Constant::Char(byte) => Ok(Pat::Char(*byte, at)),
    }
}

/// `first :: rest`, of which the `::` isn't written.
fn cons_pat(alloc: Global, at: At, first: Pat, rest: Pat) -> Result<Pat, NoMemory>
    ensures { IfOk result (λ made. made ≡ spec.cons_pat at first rest) }
{
    let pair = pair_pat(alloc, at, first, rest)?;
    let (pair, con) = both(pair, long_of_text(alloc, at, b"::"))?;
    let (pair, con) = boxed_beside(alloc, pair, con)?;
    Ok(Pat::Con(con, pair, at))
}

/// Where the `::` behind these items begins: where its item begins, or the list if it is the first.
fn cons_place(at: At, before: &[PlacedPat], item: At) -> At
    ensures { result ≡ spec.cons_place at before.now item }
{
    match before {
        [] => at,
        [_, ..] => item,
    }
}

/// A list of these items, whose first node begins where the list begins.
#[tactic(auto, using(crate::proofs::Lists::pat_steps))]
fn list_pat(alloc: Global, at: At, items: Vec<PlacedPat>) -> Result<Pat, NoMemory>
    ensures { IfOk result (λ made. made ≡ spec.list_pat at items.items) }
{
    let (mut items, nil) = both(items, long_of_text(alloc, at, b"nil"))?;
    let mut rest = Pat::Long(nil, at);
    while let Some(item) = items.pop() {
        let begin = cons_place(at, items.as_slice(), item.at);
        (items, rest) = both(items, cons_pat(alloc, begin, item.pat, rest))?;
    }
    Ok(rest)
}

/// A constructor with its argument.
fn applied_pat(alloc: Global, con: PlacedPat, arg: PlacedPat) -> Result<PlacedPat, NoMemory>
    ensures { IfOk result (λ made. made ≡ spec.applied_pat con arg) }
{
    let at = con.at;
    match con.pat {
        Pat::Long(long, _) => {
            let (arg, long) = boxed_beside(alloc, arg.pat, long)?;
            let pat = Pat::Con(long, arg, at);
            Ok(PlacedPat { at, pat })
        }
        pat => Ok(PlacedPat { at, pat }),
    }
}

/// A pattern behind what its operand has begun with.
fn continued(alloc: Global, begun: Option<PlacedPat>, pat: PlacedPat) -> Result<PlacedPat, NoMemory>
    ensures { IfOk result (λ made. made ≡ applied_to spec.applied_pat begun pat) }
{
    match begun {
        None => Ok(pat),
        Some(con) => applied_pat(alloc, con, pat),
    }
}

/// The operand that has begun, if one has.
fn operand(at: At, begun: Option<PlacedPat>) -> PlacedPat
    ensures { result ≡ unwrap_or begun (spec.missing_pat at) }
{
    match begun {
        None => PlacedPat {
            at,
            pat: Pat::Wild(at),
        },
        Some(operand) => operand,
    }
}

/// A pattern with its place.
fn placed(at: At, pat: Pat) -> PlacedPat
    ensures { result ≡ spec.placed at pat }
{
    PlacedPat { at, pat }
}

/// `inner : ty`
fn typed_pat(alloc: Global, at: At, inner: Pat, ty: &FullTy) -> Result<Pat, NoMemory>
    ensures { IfOk result (λ made. made ≡ bare.Typed inner (bare_ty ty.now) at) }
{
    let (inner, ty) = both(inner, to_ty(alloc, ty))?;
    let (inner, ty) = boxed_beside(alloc, inner, ty)?;
    Ok(Pat::Typed(inner, ty, at))
}

/// `name as inner` or `name : ty as inner`
fn as_pat(
    alloc: Global,
    at: At,
    name: &Name,
    ty: &Option<FullTy>,
    inner: Pat,
) -> Result<Pat, NoMemory>
    ensures { IfOk result (λ made. made ≡ bare.As name.now (option_map bare_ty ty.now) inner at) }
{
    let (inner, ty) = both(inner, to_optional_ty(alloc, ty))?;
    let (inner, ty) = boxed_beside(alloc, inner, ty)?;
    let ((inner, ty), name) = both((inner, ty), copy_name(name))?;
    Ok(Pat::As(name, ty, inner, at))
}

/// A pattern without derived forms.
#[cycle(to_pat)]
#[tactic(auto, using(bare_forms::proofs::PatLevels::pat_levels))]
pub fn to_pat(alloc: Global, pat: &FullPat) -> Result<PlacedPat, NoMemory>
    ensures { IfOk result (λ made. made ≡ spec.bare_pat pat.now) }
{
    match pat {
        FullPat::Wild(at) => Ok(placed(*at, Pat::Wild(*at))),
        FullPat::Constant(constant, at) => Ok(placed(*at, constant_pat(constant, *at)?)),
        FullPat::Long(long, at) => {
            let long = copy_long(alloc, &long.long)?;
            Ok(placed(*at, Pat::Long(long, *at)))
        }
        FullPat::Record(fields, at) => {
            let fields = to_pat_fields(alloc, fields.as_slice())?;
            Ok(placed(*at, Pat::Record(fields, *at)))
        }
        FullPat::Unit(at) => Ok(placed(*at, Pat::Record(List::new(alloc), *at))),
        FullPat::Tuple(parts, at) => {
            let fields = to_pat_tuple(alloc, *at, parts.as_slice())?;
            Ok(placed(*at, Pat::Record(fields, *at)))
        }
        FullPat::Paren(inner, at) => Ok(placed(*at, to_pat(alloc, inner.get())?.pat)),
        FullPat::List(items, at) => {
            let items = to_pats(alloc, items.as_slice())?;
            Ok(placed(*at, list_pat(alloc, *at, items)?))
        }
        FullPat::Run(items, at) => {
            let run = to_pat_run(alloc, *at, items.as_slice())?;
            Ok(placed(*at, run.pat))
        }
        FullPat::Typed(inner, ty, at) => {
            let inner = to_pat(alloc, inner.get())?;
            Ok(placed(*at, typed_pat(alloc, *at, inner.pat, ty)?))
        }
        FullPat::As(name, ty, inner, at) => {
            let inner = to_pat(alloc, inner.get())?;
            Ok(placed(*at, as_pat(alloc, *at, &name.name, ty, inner.pat)?))
        }
    }
}

#[cycle(to_pat)]
pub fn to_pats(alloc: Global, pats: &[FullPat]) -> Result<Vec<PlacedPat>, NoMemory>
    ensures { IfOk result (λ made. made.items ≡ map spec.bare_pat pats.now) }
{
    let mut made = Vec::new(alloc);
    for pat in pats {
        let (before, pat) = both(made, to_pat(alloc, pat))?;
        made = pushed(before, pat)?;
    }
    Ok(made)
}

/// The fields of a tuple pattern.
#[cycle(to_pat)]
fn to_pat_tuple(alloc: Global, at: At, parts: &[FullPat]) -> Result<List<PatField>, NoMemory>
    ensures { IfOk result (λ made. made ≡ spec.pat_fields_from at 1 (map spec.bare_pat parts.now)) }
{
    let mut made = List::new(alloc);
    let mut number = 1;
    for part in parts {
        let (before, part) = both(made, to_pat(alloc, part))?;
        let ((before, pat), label) = both((before, part.pat), label(alloc, at, number))?;
        made = with(before, PatField { label, pat })?;
        number += 1;
    }
    Ok(made)
}

#[cycle(to_pat)]
fn to_pat_fields(alloc: Global, fields: &[FullPatField]) -> Result<List<PatField>, NoMemory>
    ensures { IfOk result (λ made. made ≡ map spec.bare_pat_field fields.now) }
{
    let mut made = List::new(alloc);
    for field in fields {
        let (before, field) = both(made, to_pat_field(alloc, field))?;
        made = with(before, field)?;
    }
    Ok(made)
}

#[cycle(to_pat)]
#[tactic(auto, using(bare_forms::proofs::PatLevels::pat_levels))]
fn to_pat_field(alloc: Global, field: &FullPatField) -> Result<PatField, NoMemory>
    ensures { IfOk result (λ made. made ≡ spec.bare_pat_field field.now) }
{
    match field {
        FullPatField::Labelled(label, pat) => {
            let pat = to_pat(alloc, pat)?.pat;
            let (pat, label) = both(pat, copy_name(label))?;
            Ok(PatField { label, pat })
        }
        FullPatField::Named(name, ty, pat) => {
            let pat = to_named_pat(alloc, name, ty, pat)?;
            let (pat, label) = both(pat, copy_name(name))?;
            Ok(PatField { label, pat })
        }
    }
}

/// `name`, `name : ty`, `name as pat` or `name : ty as pat`.
#[cycle(to_pat)]
fn to_named_pat(
    alloc: Global,
    name: &Name,
    ty: &Option<FullTy>,
    pat: &Option<FullPat>,
) -> Result<Pat, NoMemory>
    ensures { IfOk result
        (λ made. made ≡ spec.named_pat name.now (option_map bare_ty ty.now) (option_map spec.bare_pat pat.now)) }
{
    match pat {
        Some(pat) => {
            let inner = to_pat(alloc, pat)?;
            as_pat(alloc, place(name), name, ty, inner.pat)
        }
        None => named_alone(alloc, name, ty),
    }
}

/// `name` or `name : ty`.
fn named_alone(alloc: Global, name: &Name, ty: &Option<FullTy>) -> Result<Pat, NoMemory>
    ensures { IfOk result (λ made. made ≡ spec.named_pat name.now (option_map bare_ty ty.now) None) }
{
    let alone = Pat::Long(long_of_name(alloc, name)?, place(name));
    match ty {
        None => Ok(alone),
        Some(ty) => typed_pat(alloc, place(name), alone, ty),
    }
}

/// What the parts of a run make.
#[cycle(to_pat)]
#[tactic(auto, using(bare_forms::proofs::PatLevels::pat_runs))]
fn to_pat_run(alloc: Global, at: At, items: &[FullPatItem]) -> Result<PlacedPat, NoMemory>
    ensures { IfOk result
        (λ made. made ≡ run_of joined_pat spec.applied_pat (spec.missing_pat at) (map spec.bare_pat_item items.now)) }
{
    let mut before = Vec::new(alloc);
    let mut begun = None;
    for item in items {
        match item {
            FullPatItem::Atom(pat) => {
                let ((run, con), pat) = both((before, begun), to_pat(alloc, pat))?;
                let (run, pat) = both(run, continued(alloc, con, pat))?;
                before = run;
                begun = Some(pat);
            }
            FullPatItem::Operator(name, fixity) => {
                let ((run, last), operator) = both((before, begun), operator_of(name, *fixity))?;
                before = pushed(run, (operand(at, last), operator))?;
                begun = None;
            }
        }
    }
    bind_all(alloc, before, operand(at, begun))
}
