//! What stands beside the expressions of a clause or a binding, and where phrases are written.

ghost use Rattle.std.specs.Prelude.{◌≡◌, ◌∷◌, [], IfOk, map};
ghost use Rattle.bare_forms.specs.Expressions as spec;
ghost use Rattle.bare_forms.specs.Patterns.{bare_pat};
ghost use Rattle.bare_forms.specs.Types.{bare_typ_bind, bare_dat_bind, bare_ex_bind};
ghost use Rattle.sml_trees.specs.declared.exp.Dec.TheVariants as dec;

use bare_forms::held::{appended, one, pushed};
use bare_forms::joined::pair_pat;
use bare_forms::name::copy_name;
use bare_forms::placed::{BareClause, PlacedExp, PlacedPat};
use cm_base::{List, NoMemory};
use expression_nodes::node::typed_exp;
use phrase_forms::bare::to_list;
use phrase_forms::pat::{to_pat, to_pats};
use phrase_forms::ty::to_ty;
use sml_trees::held::both;
use sml_trees::{
    At, Dec, Exp, FullDatBind, FullExBind, FullExp, FullHead, FullPat, FullTy, FullTypBind, Name,
};
use std::alloc::Global;

/// The name of the function of a clause.
pub fn name_of(head: &FullHead) -> &Name
    ensures { result.now ≡ spec.head_name head.now }
{
    match head {
        FullHead::Prefix(name, _) => &name.name,
        FullHead::Infix(_, name, _) => name,
        FullHead::ParenInfix(_, name, _, _) => name,
    }
}

/// The two arguments of an infix name, as one pattern.
fn infix_args(alloc: Global, left: &FullPat, right: &FullPat) -> Result<PlacedPat, NoMemory>
    ensures { IfOk result (λ made. made ≡ spec.infix_pat (bare_pat left.now) (bare_pat right.now)) }
{
    let (left, right) = both(to_pat(alloc, left)?, to_pat(alloc, right))?;
    let at = left.at;
    let pat = pair_pat(alloc, at, left.pat, right.pat)?;
    Ok(PlacedPat { at, pat })
}

/// The arguments of a clause.
pub fn args_of(alloc: Global, head: &FullHead) -> Result<Vec<PlacedPat>, NoMemory>
    ensures { IfOk result (λ made. made.items ≡ spec.head_args head.now) }
{
    match head {
        FullHead::Prefix(_, args) => to_pats(alloc, args.as_slice()),
        FullHead::Infix(left, _, right) => {
            let args = infix_args(alloc, left, right)?;
            pushed(Vec::new(alloc), args)
        }
        FullHead::ParenInfix(left, _, right, others) => {
            let args = infix_args(alloc, left, right)?;
            let (args, others) = both(args, to_pats(alloc, others.as_slice()))?;
            let first = pushed(Vec::new(alloc), args);
            let (others, first) = both(others, first)?;
            appended(first, List::from_vec(others))
        }
    }
}

/// `exp : ty`, if there is a type.
fn result_exp(alloc: Global, ty: &Option<FullTy>, body: PlacedExp) -> Result<Exp, NoMemory>
    ensures { IfOk result (λ made. made ≡ spec.result_exp ty.now body) }
{
    match ty {
        None => Ok(body.exp),
        Some(ty) => {
            let at = body.at;
            let (exp, ty) = both(body.exp, to_ty(alloc, ty))?;
            typed_exp(alloc, at, exp, ty)
        }
    }
}

/// A clause of a function.
pub fn clause_of(
    alloc: Global,
    head: &FullHead,
    ty: &Option<FullTy>,
    at: At,
    body: PlacedExp,
) -> Result<BareClause, NoMemory>
    ensures { IfOk result (λ made. made ≡ spec.clause_of head.now ty.now at body) }
{
    let body = result_exp(alloc, ty, body)?;
    let (body, args) = both(body, args_of(alloc, head))?;
    let ((body, args), name) = both((body, args), copy_name(name_of(head)))?;
    Ok(BareClause {
        name,
        args: List::from_vec(args),
        body,
        at,
    })
}

pub fn types_dec(alloc: Global, at: At, binds: &List<FullTypBind>) -> Result<List<Dec>, NoMemory>
    ensures { IfOk result (λ made. made ≡ dec.Types (map bare_typ_bind binds.now) at ∷ []) }
{
    one(alloc, Dec::Types(to_list(alloc, binds)?, at))
}

pub fn datatypes_dec(
    alloc: Global,
    at: At,
    binds: &List<FullDatBind>,
) -> Result<List<Dec>, NoMemory>
    ensures { IfOk result (λ made. made ≡ dec.Datatypes (map bare_dat_bind binds.now) at ∷ []) }
{
    one(alloc, Dec::Datatypes(to_list(alloc, binds)?, at))
}

pub fn exceptions_dec(
    alloc: Global,
    at: At,
    binds: &List<FullExBind>,
) -> Result<List<Dec>, NoMemory>
    ensures { IfOk result (λ made. made ≡ dec.Exceptions (map bare_ex_bind binds.now) at ∷ []) }
{
    one(alloc, Dec::Exceptions(to_list(alloc, binds)?, at))
}

/// Where an expression is written.
#[tactic(auto, using(bare_forms::proofs::ExpLevels::exp_forms))]
pub fn place_of_exp(exp: &FullExp) -> At
    ensures { result ≡ (spec.bare_exp exp.now).at }
{
    match exp {
        FullExp::Constant(_, at) => *at,
        FullExp::Long(_, at) => *at,
        FullExp::Record(_, at) => *at,
        FullExp::Unit(at) => *at,
        FullExp::Tuple(_, at) => *at,
        FullExp::Sequence(_, at) => *at,
        FullExp::Paren(_, at) => *at,
        FullExp::List(_, at) => *at,
        FullExp::Let(_, _, at) => *at,
        FullExp::Run(_, at) => *at,
        FullExp::Typed(_, _, at) => *at,
        FullExp::AndAlso(_, _, at) => *at,
        FullExp::OrElse(_, _, at) => *at,
        FullExp::Handle(_, _, at) => *at,
        FullExp::Raise(_, at) => *at,
        FullExp::If(_, _, _, at) => *at,
        FullExp::While(_, _, at) => *at,
        FullExp::Case(_, _, at) => *at,
        FullExp::Fn(_, at) => *at,
    }
}
