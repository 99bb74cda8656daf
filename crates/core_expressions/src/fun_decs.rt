//! Declarations of functions by clauses.

ghost use Rattle.std.specs.Prelude.{◌≡◌, ◌∷◌, [], OnOk};
ghost use Rattle.phrase_reading.specs.Reads.{Reads};
ghost use Rattle.core_expressions.specs.Levels.{level};
ghost use Rattle.phrase_reading.specs.Sized.{further};
ghost use Rattle.core_expressions.specs.Clauses.{clause_of, clause, function_by, function_from, function_of, function, fun_from, fun_of, fun_vars, fun_head, fun_parens, fun_dec};

use crate::exp::exp_behind;
use clause_heads::head::head_after;
use clause_heads::heads::{Wanted, first_of_head};
use clause_heads::paren_head::parens_head;
use cm_base::List;
use core_bindings::type_decs::of_ty;
use infix_names::fixity::Fixities;
use phrase_reading::binders::{marked, sees_tyvar, single, tyvar_list};
use phrase_reading::lexeme;
use phrase_reading::lexemes::Lexemes;
use phrase_reading::stop::Stop;
use phrase_reading::tall::{Tall, more, one, one_above};
use sml_lexer::{Lexeme, Word};
use sml_trees::held::both;
use sml_trees::{At, FullClause, FullDec, FullFunBind, FullHead, Name};
use std::alloc::Global;

/// A clause behind its head.
#[cycle(phrases)]
#[tactic(auto, unfolding(crate::specs::Clauses::clause_of))]
fn clause_of(
    alloc: Global,
    lexemes: &mut Lexemes<'_>,
    fixities: &mut Fixities,
    levels: u32,
    place: At,
    head: Tall<FullHead>,
) -> Result<Tall<FullClause>, Stop>
    ensures same { OnOk result (fixities.new ≡ fixities.old) }
    ensures reads { Reads (clause_of levels (level levels) fixities.old place head) lexemes.old.rest.now
        result lexemes.new.rest.now }
{
    let ty = of_ty(alloc, lexemes, Word::Colon, levels);
    let (head, ty) = both(head, ty)?;
    let body = exp_behind(alloc, lexemes, fixities, levels, Word::Equals);
    let ((head, ty), body) = both((head, ty), body)?;
    Ok(Tall {
        height: head.height.max(ty.height).max(body.height),
        tree: FullClause {
            head: head.tree,
            ty: ty.tree,
            body: body.tree,
            at: place,
        },
    })
}

/// `head [ : ty ] = exp`
#[cycle(phrases)]
#[tactic(auto, unfolding(crate::specs::Clauses::clause))]
fn clause(
    alloc: Global,
    lexemes: &mut Lexemes<'_>,
    fixities: &mut Fixities,
    levels: u32,
    wanted: &Wanted,
) -> Result<Tall<FullClause>, Stop>
    ensures same { OnOk result (fixities.new ≡ fixities.old) }
    ensures reads { Reads (clause levels (level levels) fixities.old wanted.now) lexemes.old.rest.now
        result lexemes.new.rest.now }
{
    let first = first_of_head(lexemes, fixities, wanted)?;
    let head = head_after(alloc, lexemes, fixities, levels, wanted, first)?;
    clause_of(alloc, lexemes, fixities, levels, lexeme::at(first), head)
}

/// Further clauses, each behind a `|`.
#[cycle(phrases)]
#[tactic(auto, using(phrase_reading::proofs::Steps::further_steps))]
fn clauses(
    alloc: Global,
    lexemes: &mut Lexemes<'_>,
    fixities: &mut Fixities,
    levels: u32,
    wanted: &Wanted,
    found: Tall<List<FullClause>>,
) -> Result<Tall<List<FullClause>>, Stop>
    ensures same { OnOk result (fixities.new ≡ fixities.old) }
    ensures reads { Reads (further Word.Bar (clause levels (level levels) fixities.old wanted.now) found)
        lexemes.old.rest.now result lexemes.new.rest.now }
{
    let mut found = found;
    while lexemes.sees(Word::Bar) {
        lexemes.take();
        let next = clause(alloc, lexemes, fixities, levels, wanted)?;
        found = more(found, next)?;
    }
    Ok(found)
}

/// A function behind its first clause, by which its clauses are wanted so.
#[cycle(phrases)]
#[tactic(auto, unfolding(crate::specs::Clauses::function_by))]
fn function_by(
    alloc: Global,
    lexemes: &mut Lexemes<'_>,
    fixities: &mut Fixities,
    levels: u32,
    place: At,
    wanted: &Wanted,
    first: Tall<FullClause>,
) -> Result<Tall<FullFunBind>, Stop>
    ensures same { OnOk result (fixities.new ≡ fixities.old) }
    ensures reads { Reads (function_by levels (level levels) fixities.old place wanted.now first) lexemes.old.rest.now
        result lexemes.new.rest.now }
{
    let found = one(alloc, first)?;
    let found = clauses(alloc, lexemes, fixities, levels, wanted, found)?;
    Ok(Tall {
        tree: FullFunBind {
            clauses: found.tree,
            at: place,
        },
        height: found.height,
    })
}

/// A function behind its first clause.
#[cycle(phrases)]
#[tactic(auto, unfolding(crate::specs::Clauses::function_from))]
fn function_from(
    alloc: Global,
    lexemes: &mut Lexemes<'_>,
    fixities: &mut Fixities,
    levels: u32,
    place: At,
    first: Tall<FullClause>,
) -> Result<Tall<FullFunBind>, Stop>
    ensures same { OnOk result (fixities.new ≡ fixities.old) }
    ensures reads { Reads (function_from levels (level levels) fixities.old place first) lexemes.old.rest.now
        result lexemes.new.rest.now }
{
    let wanted = Wanted::by(&first.tree.head);
    let (first, wanted) = both(first, wanted)?;
    function_by(alloc, lexemes, fixities, levels, place, &wanted, first)
}

/// A function behind the head of its first clause.
#[cycle(phrases)]
#[tactic(auto, unfolding(crate::specs::Clauses::function_of))]
fn function_of(
    alloc: Global,
    lexemes: &mut Lexemes<'_>,
    fixities: &mut Fixities,
    levels: u32,
    place: At,
    head: Tall<FullHead>,
) -> Result<Tall<FullFunBind>, Stop>
    ensures same { OnOk result (fixities.new ≡ fixities.old) }
    ensures reads { Reads (function_of levels (level levels) fixities.old place head) lexemes.old.rest.now
        result lexemes.new.rest.now }
{
    let first = clause_of(alloc, lexemes, fixities, levels, place, head)?;
    function_from(alloc, lexemes, fixities, levels, place, first)
}

/// `clause | ..`
#[cycle(phrases)]
#[tactic(auto, unfolding(crate::specs::Clauses::function))]
fn function(
    alloc: Global,
    lexemes: &mut Lexemes<'_>,
    fixities: &mut Fixities,
    levels: u32,
) -> Result<Tall<FullFunBind>, Stop>
    ensures same { OnOk result (fixities.new ≡ fixities.old) }
    ensures reads { Reads (function levels (level levels) fixities.old) lexemes.old.rest.now
        result lexemes.new.rest.now }
{
    let wanted = Wanted::Any;
    let first = first_of_head(lexemes, fixities, &wanted)?;
    let head = head_after(alloc, lexemes, fixities, levels, &wanted, first)?;
    function_of(alloc, lexemes, fixities, levels, lexeme::at(first), head)
}

/// Further functions, each behind an `and`.
#[cycle(phrases)]
#[tactic(auto, using(phrase_reading::proofs::Steps::further_steps))]
fn functions(
    alloc: Global,
    lexemes: &mut Lexemes<'_>,
    fixities: &mut Fixities,
    levels: u32,
    found: Tall<List<FullFunBind>>,
) -> Result<Tall<List<FullFunBind>>, Stop>
    ensures same { OnOk result (fixities.new ≡ fixities.old) }
    ensures reads { Reads (further Word.And (function levels (level levels) fixities.old) found)
        lexemes.old.rest.now result lexemes.new.rest.now }
{
    let mut found = found;
    while lexemes.sees(Word::And) {
        lexemes.take();
        let next = function(alloc, lexemes, fixities, levels)?;
        found = more(found, next)?;
    }
    Ok(found)
}

/// A `fun` behind its first function.
#[cycle(phrases)]
#[tactic(auto, unfolding(crate::specs::Clauses::fun_from))]
fn fun_from(
    alloc: Global,
    lexemes: &mut Lexemes<'_>,
    fixities: &mut Fixities,
    levels: u32,
    place: At,
    tyvars: List<Name>,
    first: Tall<FullFunBind>,
) -> Result<Tall<FullDec>, Stop>
    ensures same { OnOk result (fixities.new ≡ fixities.old) }
    ensures reads { Reads (fun_from levels (level levels) fixities.old place tyvars first) lexemes.old.rest.now
        result lexemes.new.rest.now }
{
    let found = one(alloc, first)?;
    let binds = functions(alloc, lexemes, fixities, levels, found)?;
    Ok(one_above(FullDec::Fun(tyvars, binds.tree, place), binds.height)?)
}

/// A `fun` behind its type variables.
#[cycle(phrases)]
#[tactic(auto, unfolding(crate::specs::Clauses::fun_of))]
fn fun_of(
    alloc: Global,
    lexemes: &mut Lexemes<'_>,
    fixities: &mut Fixities,
    levels: u32,
    place: At,
    tyvars: List<Name>,
) -> Result<Tall<FullDec>, Stop>
    ensures same { OnOk result (fixities.new ≡ fixities.old) }
    ensures reads { Reads (fun_of levels (level levels) fixities.old place tyvars) lexemes.old.rest.now
        result lexemes.new.rest.now }
{
    let first = function(alloc, lexemes, fixities, levels)?;
    fun_from(alloc, lexemes, fixities, levels, place, tyvars, first)
}

/// A `fun` behind the parenthesis of its first head.
#[cycle(phrases)]
#[tactic(auto, unfolding(crate::specs::Clauses::fun_head))]
fn fun_head(
    alloc: Global,
    lexemes: &mut Lexemes<'_>,
    fixities: &mut Fixities,
    levels: u32,
    place: At,
    paren: At,
) -> Result<Tall<FullDec>, Stop>
    ensures same { OnOk result (fixities.new ≡ fixities.old) }
    ensures reads { Reads (fun_head levels (level levels) fixities.old place paren) lexemes.old.rest.now
        result lexemes.new.rest.now }
{
    let wanted = Wanted::Any;
    let head = parens_head(alloc, lexemes, fixities, levels, &wanted, paren)?;
    let first = function_of(alloc, lexemes, fixities, levels, paren, head)?;
    fun_from(
        alloc,
        lexemes,
        fixities,
        levels,
        place,
        List::new(alloc),
        first,
    )
}

/// A `fun` behind a parenthesis: type variables, or the head that begins with it.
#[cycle(phrases)]
#[tactic(auto, using(phrase_reading::proofs::NameSteps::if_taken_steps), unfolding(crate::specs::Clauses::fun_parens, crate::specs::Clauses::fun_vars))]
fn fun_parens(
    alloc: Global,
    lexemes: &mut Lexemes<'_>,
    fixities: &mut Fixities,
    levels: u32,
    place: At,
    paren: &Lexeme,
) -> Result<Tall<FullDec>, Stop>
    ensures same { OnOk result (fixities.new ≡ fixities.old) }
    ensures reads { Reads (fun_parens levels (level levels) fixities.old place paren.now) lexemes.old.rest.now
        result lexemes.new.rest.now }
{
    if sees_tyvar(lexemes) {
        let var = lexemes.tyvar()?;
        let tyvars = tyvar_list(alloc, lexemes, var)?;
        return fun_of(alloc, lexemes, fixities, levels, place, tyvars);
    }
    fun_head(alloc, lexemes, fixities, levels, place, lexeme::at(paren))
}

/// `fun tyvars function and ..`
#[cycle(phrases)]
#[tactic(auto, using(phrase_reading::proofs::NameSteps::if_taken_steps, phrase_reading::proofs::NameSteps::marked_steps), unfolding(crate::specs::Clauses::fun_dec))]
pub fn fun_dec(
    alloc: Global,
    lexemes: &mut Lexemes<'_>,
    fixities: &mut Fixities,
    levels: u32,
    place: At,
) -> Result<Tall<FullDec>, Stop>
    ensures same { OnOk result (fixities.new ≡ fixities.old) }
    ensures reads { Reads (fun_dec levels (level levels) fixities.old place) lexemes.old.rest.now
        result lexemes.new.rest.now }
{
    if sees_tyvar(lexemes) {
        let var = lexemes.tyvar()?;
        let tyvars = single(alloc, var)?;
        return fun_of(alloc, lexemes, fixities, levels, place, tyvars);
    }
    if let Some(open) = marked(lexemes, Word::Open) {
        lexemes.take();
        return fun_parens(alloc, lexemes, fixities, levels, place, open);
    }
    fun_of(alloc, lexemes, fixities, levels, place, List::new(alloc))
}
