//! The heights of patterns.

ghost use Rattle.std.specs.Prelude.{◌≡◌, IfOk, map};
ghost use Rattle.std.specs.Option.{unwrap_or};
ghost use Rattle.bare_forms.specs.Runs.{applied_to, run_of};
ghost use Rattle.tree_heights.specs.Heights.{highest};
ghost use Rattle.tree_heights.specs.NodeHeights as nodes;
ghost use Rattle.tree_heights.specs.NodeHeights.{joined_pat_height};
ghost use Rattle.tree_heights.specs.FullHeights as spec;

use crate::height::above;
use crate::height_node::{cons_height, pats_height};
use crate::height_ty::{optional_ty_height, ty_height};
use bare_forms::run::{Operand, bind_all, operator_of};
use cm_base::NoMemory;
use sml_trees::{FullPat, FullPatField, FullPatItem, FullTy, Name};
use std::alloc::Global;

/// The height of a pattern, and whether it is a long identifier, which may take an argument.
#[derive(Drop)]
pub struct PatHeight {
    pub height: usize,
    pub is_long: bool,
}

impl Operand for PatHeight {
    ghost joined = { joined_pat_height };

    fn join(
        _alloc: Global,
        _operator: Name,
        left: PatHeight,
        right: PatHeight,
    ) -> Result<PatHeight, NoMemory> {
        Ok(pat_of(cons_height(left.height, right.height)?, false))
    }
}

/// A pattern of this height.
fn pat_of(height: usize, is_long: bool) -> PatHeight
    ensures { result ≡ nodes.pat_of height is_long }
{
    PatHeight { height, is_long }
}

/// A constructor with its argument.
fn applied(con: PatHeight, arg: PatHeight) -> Result<PatHeight, NoMemory>
    ensures { IfOk result (λ made. made ≡ nodes.applied_pat_height con arg) }
{
    if con.is_long {
        return Ok(pat_of(above(arg.height)?, false));
    }
    Ok(pat_of(con.height, false))
}

/// A pattern behind what its operand has begun with.
fn continued(begun: Option<PatHeight>, pat: PatHeight) -> Result<PatHeight, NoMemory>
    ensures { IfOk result (λ made. made ≡ applied_to nodes.applied_pat_height begun pat) }
{
    match begun {
        None => Ok(pat),
        Some(con) => applied(con, pat),
    }
}

/// The operand that has begun, if one has.
fn operand(begun: Option<PatHeight>) -> PatHeight
    ensures { result ≡ unwrap_or begun nodes.missing_pat_height }
{
    match begun {
        None => pat_of(1, false),
        Some(operand) => operand,
    }
}

/// Whether there is none: the list of no item is a long identifier, `nil`.
fn is_none(items: &[FullPat]) -> bool
    ensures { result ≡ nodes.is_none items.now }
{
    match items {
        [] => true,
        [_, ..] => false,
    }
}

/// The height of what a pattern becomes.
#[cycle(pat_height)]
#[tactic(auto, using(crate::proofs::PatHeights::pat_forms))]
pub fn pat_height(alloc: Global, pat: &FullPat) -> Result<PatHeight, NoMemory>
    ensures { IfOk result (λ made. made ≡ spec.full_pat pat.now) }
{
    match pat {
        FullPat::Wild(_) => Ok(pat_of(1, false)),
        FullPat::Constant(_, _) => Ok(pat_of(1, false)),
        FullPat::Long(_, _) => Ok(pat_of(1, true)),
        FullPat::Record(fields, _) => {
            let fields = pat_fields_height(alloc, fields.as_slice())?;
            Ok(pat_of(above(fields)?, false))
        }
        FullPat::Unit(_) => Ok(pat_of(1, false)),
        FullPat::Tuple(parts, _) => {
            let parts = highest_pat(alloc, parts.as_slice())?;
            Ok(pat_of(above(parts)?, false))
        }
        FullPat::Paren(inner, _) => pat_height(alloc, inner.get()),
        FullPat::List(items, _) => {
            let is_long = is_none(items.as_slice());
            let items = pat_heights(alloc, items.as_slice())?;
            Ok(pat_of(pats_height(items)?, is_long))
        }
        FullPat::Run(items, _) => pat_run_height(alloc, items.as_slice()),
        FullPat::Typed(inner, ty, _) => {
            let inner = pat_height(alloc, inner.get())?.height;
            Ok(pat_of(above(inner.max(ty_height(ty)?))?, false))
        }
        FullPat::As(_, ty, inner, _) => {
            let ty = optional_ty_height(ty)?;
            let inner = pat_height(alloc, inner.get())?.height;
            Ok(pat_of(above(ty.max(inner))?, false))
        }
    }
}

/// The heights of patterns.
#[cycle(pat_height)]
pub fn pat_heights(alloc: Global, pats: &[FullPat]) -> Result<Vec<usize>, NoMemory>
    ensures { IfOk result (λ made. made.items ≡ map spec.height_of_pat pats.now) }
{
    let mut made = Vec::new(alloc);
    for pat in pats {
        made.push(pat_height(alloc, pat)?.height)?;
    }
    Ok(made)
}

#[cycle(pat_height)]
fn highest_pat(alloc: Global, pats: &[FullPat]) -> Result<usize, NoMemory>
    ensures { IfOk result (λ made. made ≡ highest (map spec.height_of_pat pats.now)) }
{
    let mut made = 0usize;
    for pat in pats {
        made = made.max(pat_height(alloc, pat)?.height);
    }
    Ok(made)
}

#[cycle(pat_height)]
fn pat_fields_height(alloc: Global, fields: &[FullPatField]) -> Result<usize, NoMemory>
    ensures { IfOk result (λ made. made ≡ highest (map spec.full_pat_field fields.now)) }
{
    let mut made = 0usize;
    for field in fields {
        made = made.max(pat_field_height(alloc, field)?);
    }
    Ok(made)
}

#[cycle(pat_height)]
#[tactic(auto, using(crate::proofs::PatHeights::field_forms))]
fn pat_field_height(alloc: Global, field: &FullPatField) -> Result<usize, NoMemory>
    ensures { IfOk result (λ made. made ≡ spec.full_pat_field field.now) }
{
    match field {
        FullPatField::Labelled(_, pat) => Ok(pat_height(alloc, pat)?.height),
        FullPatField::Named(_, ty, pat) => named_pat_height(alloc, ty, pat),
    }
}

/// `name`, `name : ty`, `name as pat` or `name : ty as pat`.
#[cycle(pat_height)]
fn named_pat_height(
    alloc: Global,
    ty: &Option<FullTy>,
    pat: &Option<FullPat>,
) -> Result<usize, NoMemory>
    ensures { IfOk result (λ made. made ≡ spec.named_pat_height ty.now pat.now) }
{
    match pat {
        None => named_height(ty),
        Some(pat) => {
            let ty = optional_ty_height(ty)?;
            above(ty.max(pat_height(alloc, pat)?.height))
        }
    }
}

/// `name` or `name : ty`.
fn named_height(ty: &Option<FullTy>) -> Result<usize, NoMemory>
    ensures { IfOk result (λ made. made ≡ spec.named_height ty.now) }
{
    match ty {
        None => Ok(1),
        Some(ty) => above(1usize.max(ty_height(ty)?)),
    }
}

/// What the parts of a run make.
#[cycle(pat_height)]
#[tactic(auto, using(crate::proofs::PatHeights::pat_runs))]
fn pat_run_height(alloc: Global, items: &[FullPatItem]) -> Result<PatHeight, NoMemory>
    ensures { IfOk result
        (λ made. made ≡ run_of joined_pat_height nodes.applied_pat_height nodes.missing_pat_height
        (map spec.full_pat_item items.now)) }
{
    let mut before = Vec::new(alloc);
    let mut begun = None;
    for item in items {
        match item {
            FullPatItem::Atom(pat) => {
                begun = Some(continued(begun, pat_height(alloc, pat)?)?);
            }
            FullPatItem::Operator(name, fixity) => {
                let operator = operator_of(name, *fixity)?;
                before.push((operand(begun), operator))?;
                begun = None;
            }
        }
    }
    let last = operand(begun);
    bind_all(alloc, before, last)
}
