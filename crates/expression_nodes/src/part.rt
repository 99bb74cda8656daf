//! Declarations and structure expressions of parts that are already bare.

ghost use Rattle.std.specs.Prelude.{◌≡◌, ◌∷◌, [], IfOk};
ghost use Rattle.bare_forms.specs.Expressions as spec;
ghost use Rattle.sml_trees.specs.declared.exp.Dec.TheVariants as dec;
ghost use Rattle.sml_trees.specs.declared.exp.StrExp.TheVariants as str;

use bare_forms::held::{boxed_beside, boxed_two, one, with};
use bare_forms::name::{copy_long, copy_longs, copy_name, copy_names};
use bare_forms::placed::CountedRule;
use cm_base::{Boxed, List, NoMemory};
use sml_trees::held::both;
use sml_trees::{At, Dec, LongName, Name, Rule, SigExp, StrBind, StrExp};
use std::alloc::Global;

/// The bindings of a `val` before its first `rec`, and those from it on.
#[tactic(auto, using(std::proofs::lemmas::Grind::common_steps, crate::proofs::Split::split_steps))]
fn split_rules(alloc: Global, binds: Vec<CountedRule>) -> Result<(List<Rule>, List<Rule>), NoMemory>
    ensures plain { IfOk result (λ made. made.0 ≡ spec.plain_rules binds.items) }
    ensures recs { IfOk result (λ made. made.1 ≡ spec.rec_rules binds.items) }
{
    let mut left = binds;
    left.reverse();
    let mut plain = List::new(alloc);
    let mut recs = List::new(alloc);
    let mut begun = false;
    while let Some(bind) = left.pop() {
        if begun {
            ((left, plain), recs) = both((left, plain), with(recs, bind.rule))?;
        } else if bind.recs == 0 {
            ((left, recs), plain) = both((left, recs), with(plain, bind.rule))?;
        } else {
            begun = true;
            ((left, plain), recs) = both((left, plain), with(recs, bind.rule))?;
        }
    }
    Ok((plain, recs))
}

/// `val tyvars binds`
pub fn val_dec(
    alloc: Global,
    at: At,
    tyvars: &[Name],
    binds: Vec<CountedRule>,
) -> Result<List<Dec>, NoMemory>
    ensures { IfOk result
        (λ made. made ≡ dec.Val tyvars.now (spec.plain_rules binds.items) (spec.rec_rules binds.items) at ∷ []) }
{
    let (rules, tyvars) = both(split_rules(alloc, binds)?, copy_names(alloc, tyvars))?;
    one(alloc, Dec::Val(tyvars, rules.0, rules.1, at))
}

/// `val tyvars rec rules`
pub fn fun_dec(
    alloc: Global,
    at: At,
    tyvars: &[Name],
    rules: List<Rule>,
) -> Result<List<Dec>, NoMemory>
    ensures { IfOk result (λ made. made ≡ dec.Val tyvars.now [] rules at ∷ []) }
{
    let (rules, tyvars) = both(rules, copy_names(alloc, tyvars))?;
    one(alloc, Dec::Val(tyvars, List::new(alloc), rules, at))
}

pub fn replication_dec(
    alloc: Global,
    at: At,
    name: &Name,
    long: &LongName,
) -> Result<List<Dec>, NoMemory>
    ensures { IfOk result (λ made. made ≡ dec.Replication name.now long.now at ∷ []) }
{
    let name = copy_name(name)?;
    one(alloc, Dec::Replication(name, copy_long(alloc, long)?, at))
}

pub fn open_dec(alloc: Global, at: At, longs: &[LongName]) -> Result<List<Dec>, NoMemory>
    ensures { IfOk result (λ made. made ≡ dec.Open longs.now at ∷ []) }
{
    one(alloc, Dec::Open(copy_longs(alloc, longs)?, at))
}

pub fn structures_dec(alloc: Global, at: At, binds: List<StrBind>) -> Result<List<Dec>, NoMemory>
    ensures { IfOk result (λ made. made ≡ dec.Structures binds at ∷ []) }
{
    one(alloc, Dec::Structures(binds, at))
}

/// `local hidden in shown end`
pub fn local_dec(alloc: Global, at: At, hidden: Dec, shown: Dec) -> Result<List<Dec>, NoMemory>
    ensures { IfOk result (λ made. made ≡ dec.Local hidden shown at ∷ []) }
{
    let (hidden, shown) = boxed_two(alloc, hidden, shown)?;
    one(alloc, Dec::Local(hidden, shown, at))
}

/// `struct dec end`
pub fn struct_of(alloc: Global, at: At, dec: Dec) -> Result<StrExp, NoMemory>
    ensures { IfOk result (λ made. made ≡ str.Struct dec at) }
{
    Ok(StrExp::Struct(Boxed::new(alloc, dec)?, at))
}

/// `let dec in body end`
pub fn within_str(alloc: Global, at: At, dec: Dec, body: StrExp) -> Result<StrExp, NoMemory>
    ensures { IfOk result (λ made. made ≡ str.Within dec body at) }
{
    let (dec, body) = boxed_two(alloc, dec, body)?;
    Ok(StrExp::Within(dec, body, at))
}

/// `body : sig`
pub fn transparent_str(alloc: Global, at: At, body: StrExp, sig: SigExp) -> Result<StrExp, NoMemory>
    ensures { IfOk result (λ made. made ≡ str.Transparent body sig at) }
{
    let (body, sig) = boxed_beside(alloc, body, sig)?;
    Ok(StrExp::Transparent(body, sig, at))
}

/// `body :> sig`
pub fn opaque_str(alloc: Global, at: At, body: StrExp, sig: SigExp) -> Result<StrExp, NoMemory>
    ensures { IfOk result (λ made. made ≡ str.Opaque body sig at) }
{
    let (body, sig) = boxed_beside(alloc, body, sig)?;
    Ok(StrExp::Opaque(body, sig, at))
}

/// A functor with its argument.
pub fn functor_str(alloc: Global, at: At, name: &Name, arg: StrExp) -> Result<StrExp, NoMemory>
    ensures { IfOk result (λ made. made ≡ str.Functor name.now arg at) }
{
    let (arg, name) = both(arg, copy_name(name))?;
    let (arg, name) = boxed_beside(alloc, arg, name)?;
    Ok(StrExp::Functor(name, arg, at))
}
