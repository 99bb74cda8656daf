//! Declarations of values, and the right sides of `rec`.

ghost use Rattle.std.specs.Prelude.{◌≡◌, ◌+◌, ◌-◌, ◌<◌, ◌∷◌, [], Some, OnOk, MatchResult};
ghost use Rattle.grammars.specs.Grammar.{begins};
ghost use Rattle.phrase_reading.specs.Reads.{Reads};
ghost use Rattle.core_expressions.specs.Levels.{below, level};
ghost use Rattle.phrase_reading.specs.Sized.{over};
ghost use Rattle.sml_trees.specs.declared.full_exp.FullExp.TheVariants.{Paren};
ghost use Rattle.phrase_reading.specs.Names.{marked};
ghost use Rattle.core_expressions.specs.Values.{recs_from, right_side, bound_exp, val_bind_of, val_bind, with_bind, val_binds_from, val_from, val_of, val_vars, val_pat, val_parens, val_dec, fn_parens};

use crate::binds::Binds;
use crate::exp::{exp, fn_of};
use crate::exp_constraints::constraints;
use crate::rule_pats::{first_of_pat, pat_after};
use cm_base::List;
use expression_parts::nodes::in_parens;
use infix_names::fixity::Fixities;
use phrase_reading::binders::{marked, sees_tyvar, single, tyvar_list};
use phrase_reading::lexeme;
use phrase_reading::lexemes::Lexemes;
use phrase_reading::stop::Stop;
use phrase_reading::tall::{Tall, more, one, one_above};
use sml_lexer::{Lexeme, Word};
use sml_trees::held::both;
use sml_trees::{At, FullDec, FullExp, FullPat, FullValBind, Name};
use std::alloc::Global;

/// Any number of `rec`, behind so many.
#[tactic(auto, using(crate::proofs::ValSteps::recs_steps))]
fn recs_from(lexemes: &mut Lexemes<'_>, before: u32) -> Result<u32, Stop>
    ensures { Reads (recs_from before) lexemes.old.rest.now result lexemes.new.rest.now }
{
    let mut recs = before;
    while lexemes.sees(Word::Rec) {
        lexemes.take();
        recs = recs.checked_add(1).ok_or(Stop::NoMemory)?;
    }
    Ok(recs)
}

/// A right side: behind some `rec` a function.
#[cycle(phrases)]
#[tactic(auto, using(crate::proofs::ValSteps::right_steps))]
fn right_side(
    alloc: Global,
    lexemes: &mut Lexemes<'_>,
    fixities: &mut Fixities,
    levels: u32,
    recs: u32,
) -> Result<Tall<FullExp>, Stop>
    ensures same { OnOk result (fixities.new ≡ fixities.old) }
    ensures reads { Reads (right_side (level levels) fixities.old recs) lexemes.old.rest.now
        result lexemes.new.rest.now }
{
    if 0 < recs {
        fn_exp(alloc, lexemes, fixities, levels)
    } else {
        exp(alloc, lexemes, fixities, levels)
    }
}

/// What a binding behind so many `rec` binds, from its `=` on.
#[cycle(phrases)]
#[tactic(auto, unfolding(crate::specs::Values::bound_exp))]
fn bound_exp(
    alloc: Global,
    lexemes: &mut Lexemes<'_>,
    fixities: &mut Fixities,
    levels: u32,
    recs: u32,
) -> Result<Tall<FullExp>, Stop>
    ensures same { OnOk result (fixities.new ≡ fixities.old) }
    ensures reads { Reads (bound_exp (level levels) fixities.old recs) lexemes.old.rest.now
        result lexemes.new.rest.now }
{
    lexemes.expect(Word::Equals)?;
    right_side(alloc, lexemes, fixities, levels, recs)
}

/// A binding behind so many `rec`, from its `=` on.
#[cycle(phrases)]
#[tactic(auto, unfolding(crate::specs::Values::val_bind_of))]
fn val_bind_of(
    alloc: Global,
    lexemes: &mut Lexemes<'_>,
    fixities: &mut Fixities,
    levels: u32,
    recs: u32,
    place: At,
    pat: Tall<FullPat>,
) -> Result<Tall<FullValBind>, Stop>
    ensures same { OnOk result (fixities.new ≡ fixities.old) }
    ensures reads { Reads (val_bind_of (level levels) fixities.old recs place pat) lexemes.old.rest.now
        result lexemes.new.rest.now }
{
    let exp = bound_exp(alloc, lexemes, fixities, levels, recs);
    let (pat, exp) = both(pat, exp)?;
    Ok(Tall {
        height: pat.height.max(exp.height),
        tree: FullValBind {
            recs,
            pat: pat.tree,
            exp: exp.tree,
            at: place,
        },
    })
}

/// `{ rec } pat = exp`, behind so many `rec`.
#[cycle(phrases)]
#[tactic(auto, unfolding(crate::specs::Values::val_bind))]
fn val_bind(
    alloc: Global,
    lexemes: &mut Lexemes<'_>,
    fixities: &mut Fixities,
    levels: u32,
    before: u32,
) -> Result<Tall<FullValBind>, Stop>
    ensures same { OnOk result (fixities.new ≡ fixities.old) }
    ensures reads { Reads (val_bind (level levels) fixities.old before) lexemes.old.rest.now
        result lexemes.new.rest.now }
{
    let recs = recs_from(lexemes, before)?;
    let first = first_of_pat(lexemes, fixities)?;
    let pat = pat_after(alloc, lexemes, fixities, levels, first)?;
    val_bind_of(
        alloc,
        lexemes,
        fixities,
        levels,
        recs,
        lexeme::at(first),
        pat,
    )
}

/// The bindings and one more.
fn with_bind(binds: Binds, next: Tall<FullValBind>) -> Result<Binds, Stop>
    ensures { MatchResult result (λ all. all ≡ with_bind binds next) (λ stop. stop ≡ Stop.NoMemory) }
{
    let recs = next.tree.recs;
    Ok(Binds {
        found: more(binds.found, next)?,
        recs,
    })
}

/// Further bindings, each behind an `and`.
#[cycle(phrases)]
#[tactic(auto, using(crate::proofs::ValSteps::binds_steps))]
fn val_binds_from(
    alloc: Global,
    lexemes: &mut Lexemes<'_>,
    fixities: &mut Fixities,
    levels: u32,
    found: Binds,
) -> Result<Binds, Stop>
    ensures same { OnOk result (fixities.new ≡ fixities.old) }
    ensures reads { Reads (val_binds_from (level levels) fixities.old found) lexemes.old.rest.now
        result lexemes.new.rest.now }
{
    let mut binds = found;
    while lexemes.sees(Word::And) {
        lexemes.take();
        let next = val_bind(alloc, lexemes, fixities, levels, binds.recs)?;
        binds = with_bind(binds, next)?;
    }
    Ok(binds)
}

/// A `val` behind its first binding.
#[cycle(phrases)]
#[tactic(auto, unfolding(crate::specs::Values::val_from))]
fn val_from(
    alloc: Global,
    lexemes: &mut Lexemes<'_>,
    fixities: &mut Fixities,
    levels: u32,
    place: At,
    tyvars: List<Name>,
    first: Tall<FullValBind>,
) -> Result<Tall<FullDec>, Stop>
    ensures same { OnOk result (fixities.new ≡ fixities.old) }
    ensures reads { Reads (val_from (level levels) fixities.old place tyvars first)
        lexemes.old.rest.now result lexemes.new.rest.now }
{
    let recs = first.tree.recs;
    let found = one(alloc, first)?;
    let binds = val_binds_from(alloc, lexemes, fixities, levels, Binds { found, recs })?;
    Ok(one_above(
        FullDec::Val(tyvars, binds.found.tree, place),
        binds.found.height,
    )?)
}

/// A `val` behind its type variables.
#[cycle(phrases)]
#[tactic(auto, unfolding(crate::specs::Values::val_of))]
fn val_of(
    alloc: Global,
    lexemes: &mut Lexemes<'_>,
    fixities: &mut Fixities,
    levels: u32,
    place: At,
    tyvars: List<Name>,
) -> Result<Tall<FullDec>, Stop>
    ensures same { OnOk result (fixities.new ≡ fixities.old) }
    ensures reads { Reads (val_of (level levels) fixities.old place tyvars) lexemes.old.rest.now
        result lexemes.new.rest.now }
{
    let first = val_bind(alloc, lexemes, fixities, levels, 0)?;
    val_from(alloc, lexemes, fixities, levels, place, tyvars, first)
}

/// A `val` behind the parenthesis of its first pattern.
#[cycle(phrases)]
#[tactic(auto, unfolding(crate::specs::Values::val_pat))]
fn val_pat(
    alloc: Global,
    lexemes: &mut Lexemes<'_>,
    fixities: &mut Fixities,
    levels: u32,
    place: At,
    first: &Lexeme,
) -> Result<Tall<FullDec>, Stop>
    ensures same { OnOk result (fixities.new ≡ fixities.old) }
    ensures reads { Reads (val_pat (level levels) fixities.old place first.now) lexemes.old.rest.now
        result lexemes.new.rest.now }
{
    let pat = pat_after(alloc, lexemes, fixities, levels, first)?;
    let bind = val_bind_of(alloc, lexemes, fixities, levels, 0, lexeme::at(first), pat)?;
    val_from(
        alloc,
        lexemes,
        fixities,
        levels,
        place,
        List::new(alloc),
        bind,
    )
}

/// A `val` behind a parenthesis: type variables, or the pattern that begins with it.
#[cycle(phrases)]
#[tactic(auto, using(phrase_reading::proofs::NameSteps::if_taken_steps), unfolding(crate::specs::Values::val_parens, crate::specs::Values::val_vars))]
fn val_parens(
    alloc: Global,
    lexemes: &mut Lexemes<'_>,
    fixities: &mut Fixities,
    levels: u32,
    place: At,
    first: &Lexeme,
) -> Result<Tall<FullDec>, Stop>
    ensures same { OnOk result (fixities.new ≡ fixities.old) }
    ensures reads { Reads (val_parens (level levels) fixities.old place first.now) lexemes.old.rest.now
        result lexemes.new.rest.now }
{
    if sees_tyvar(lexemes) {
        let var = lexemes.tyvar()?;
        let tyvars = tyvar_list(alloc, lexemes, var)?;
        return val_of(alloc, lexemes, fixities, levels, place, tyvars);
    }
    val_pat(alloc, lexemes, fixities, levels, place, first)
}

/// `val tyvars valbind and ..`
#[cycle(phrases)]
#[tactic(auto, using(phrase_reading::proofs::NameSteps::if_taken_steps, phrase_reading::proofs::NameSteps::marked_steps), unfolding(crate::specs::Values::val_dec))]
pub fn val_dec(
    alloc: Global,
    lexemes: &mut Lexemes<'_>,
    fixities: &mut Fixities,
    levels: u32,
    place: At,
) -> Result<Tall<FullDec>, Stop>
    ensures same { OnOk result (fixities.new ≡ fixities.old) }
    ensures reads { Reads (val_dec (level levels) fixities.old place) lexemes.old.rest.now
        result lexemes.new.rest.now }
{
    if sees_tyvar(lexemes) {
        let var = lexemes.tyvar()?;
        let tyvars = single(alloc, var)?;
        return val_of(alloc, lexemes, fixities, levels, place, tyvars);
    }
    if let Some(open) = marked(lexemes, Word::Open) {
        lexemes.take();
        return val_parens(alloc, lexemes, fixities, levels, place, open);
    }
    val_of(alloc, lexemes, fixities, levels, place, List::new(alloc))
}

/// The right side of a `rec`.
#[cycle(phrases)]
#[tactic(auto, using(crate::proofs::ValSteps::fn_exp_steps))]
pub fn fn_exp(
    alloc: Global,
    lexemes: &mut Lexemes<'_>,
    fixities: &mut Fixities,
    levels: u32,
) -> Result<Tall<FullExp>, Stop>
    ensures same { OnOk result (fixities.new ≡ fixities.old) }
    ensures reads { Reads ((level levels).fn_exp fixities.old) lexemes.old.rest.now
        result lexemes.new.rest.now }
{
    if let Some(word) = marked(lexemes, Word::Fn) {
        lexemes.take();
        if levels == 0 {
            return Err(Stop::TooDeep);
        }
        return fn_of(alloc, lexemes, fixities, levels - 1, lexeme::at(word));
    }
    if let Some(open) = marked(lexemes, Word::Open) {
        lexemes.take();
        if levels == 0 {
            return Err(Stop::TooDeep);
        }
        return fn_parens(alloc, lexemes, fixities, levels, lexeme::at(open));
    }
    Err(Stop::Refused)
}

/// The right side of a `rec` in parentheses, behind the first of them.
#[cycle(phrases)]
#[tactic(auto, using(crate::proofs::DecSteps::level_steps), unfolding(crate::specs::Values::fn_parens))]
fn fn_parens(
    alloc: Global,
    lexemes: &mut Lexemes<'_>,
    fixities: &mut Fixities,
    levels: u32,
    place: At,
) -> Result<Tall<FullExp>, Stop>
    requires { 0 < levels }
    ensures same { OnOk result (fixities.new ≡ fixities.old) }
    ensures reads { Reads (fn_parens levels (below levels) fixities.old place) lexemes.old.rest.now
        result lexemes.new.rest.now }
{
    let inner = fn_exp(alloc, lexemes, fixities, levels - 1)?;
    let (inner, ()) = both(inner, lexemes.expect(Word::Close))?;
    let whole = paren_exp(alloc, place, inner)?;
    constraints(alloc, lexemes, levels, place, whole)
}

/// An expression with parentheses round it.
fn paren_exp(alloc: Global, place: At, inner: Tall<FullExp>) -> Result<Tall<FullExp>, Stop>
    ensures { MatchResult result
        (λ made. made ≡ over (λ exp. Paren exp place) inner)
        (λ stop. stop ≡ Stop.NoMemory) }
{
    Ok(in_parens(alloc, place, inner)?)
}
