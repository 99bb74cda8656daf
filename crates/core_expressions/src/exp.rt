//! Expressions and matches, read by recursive descent.

ghost use Rattle.std.specs.Prelude.{◌≡◌, OnOk};
ghost use Rattle.core_expressions.specs.Expressions.{disjunction_after, conjunction_after, operand_after, chained, beside, side, typed_of, handled, handle_exp, prefix_word, raise_exp, exp_behind, rules_behind, if_exp, while_exp, case_exp, fn_of, rules_of, more_rules, rule};
ghost use Rattle.core_expressions.specs.Levels.{below, level};
ghost use Rattle.phrase_reading.specs.Reads.{Reads};

use crate::atexp::atexp;
use crate::exp_constraints::constraints;
use crate::rule_pats::{first_of_pat, pat_after};
use crate::run::run_from;
use cm_base::List;
use expression_parts::chain::Chain;
use expression_parts::exp_starts::{first_of_exp, starts_prefix};
use expression_parts::nodes::{branched, cased, guarded, linked, raised, repeated};
use infix_names::fixity::Fixities;
use phrase_reading::lexeme::{at, word};
use phrase_reading::lexemes::Lexemes;
use phrase_reading::stop::Stop;
use phrase_reading::tall::{Tall, lower, more, one, one_above};
use sml_lexer::{Lexeme, Word};
use sml_trees::held::both;
use sml_trees::{At, FullExp, FullRule};
use std::alloc::Global;

/// An expression.
#[cycle(phrases)]
#[tactic(auto, unfolding(crate::specs::Expressions::exp_of))]
pub fn exp(
    alloc: Global,
    lexemes: &mut Lexemes<'_>,
    fixities: &mut Fixities,
    levels: u32,
) -> Result<Tall<FullExp>, Stop>
    ensures same { OnOk result (fixities.new ≡ fixities.old) }
    ensures reads { Reads ((level levels).exp fixities.old)
        lexemes.old.rest.now result lexemes.new.rest.now }
{
    let start = first_of_exp(lexemes, fixities)?;
    let left = disjunction_after(alloc, lexemes, fixities, levels, start)?;
    handled(alloc, lexemes, fixities, levels, at(start), left)
}

/// What stands on a side of `orelse`.
#[cycle(phrases)]
#[tactic(auto, unfolding(crate::specs::Expressions::conjunction_of))]
fn conjunction(
    alloc: Global,
    lexemes: &mut Lexemes<'_>,
    fixities: &mut Fixities,
    levels: u32,
) -> Result<Tall<FullExp>, Stop>
    ensures same { OnOk result (fixities.new ≡ fixities.old) }
    ensures reads { Reads ((level levels).conjunction fixities.old)
        lexemes.old.rest.now result lexemes.new.rest.now }
{
    let start = first_of_exp(lexemes, fixities)?;
    conjunction_after(alloc, lexemes, fixities, levels, start)
}

/// What stands on a side of `andalso`.
#[cycle(phrases)]
#[tactic(auto, unfolding(crate::specs::Expressions::operand_of))]
fn operand(
    alloc: Global,
    lexemes: &mut Lexemes<'_>,
    fixities: &mut Fixities,
    levels: u32,
) -> Result<Tall<FullExp>, Stop>
    ensures same { OnOk result (fixities.new ≡ fixities.old) }
    ensures reads { Reads ((level levels).operand fixities.old)
        lexemes.old.rest.now result lexemes.new.rest.now }
{
    let start = first_of_exp(lexemes, fixities)?;
    operand_after(alloc, lexemes, fixities, levels, start)
}

/// What stands before `handle`, behind its first lexeme.
#[cycle(phrases)]
#[tactic(auto, unfolding(crate::specs::Expressions::disjunction_after))]
fn disjunction_after(
    alloc: Global,
    lexemes: &mut Lexemes<'_>,
    fixities: &mut Fixities,
    levels: u32,
    start: &Lexeme,
) -> Result<Tall<FullExp>, Stop>
    ensures same { OnOk result (fixities.new ≡ fixities.old) }
    ensures reads { Reads (disjunction_after levels (below levels) fixities.old start.now)
        lexemes.old.rest.now result lexemes.new.rest.now }
{
    let first = conjunction_after(alloc, lexemes, fixities, levels, start)?;
    chained(
        alloc,
        lexemes,
        fixities,
        levels,
        at(start),
        Chain::Disjunction,
        first,
    )
}

/// What stands on a side of `orelse`, behind its first lexeme.
#[cycle(phrases)]
#[tactic(auto, unfolding(crate::specs::Expressions::conjunction_after))]
fn conjunction_after(
    alloc: Global,
    lexemes: &mut Lexemes<'_>,
    fixities: &mut Fixities,
    levels: u32,
    start: &Lexeme,
) -> Result<Tall<FullExp>, Stop>
    ensures same { OnOk result (fixities.new ≡ fixities.old) }
    ensures reads { Reads (conjunction_after levels (below levels) fixities.old start.now)
        lexemes.old.rest.now result lexemes.new.rest.now }
{
    let first = operand_after(alloc, lexemes, fixities, levels, start)?;
    chained(
        alloc,
        lexemes,
        fixities,
        levels,
        at(start),
        Chain::Conjunction,
        first,
    )
}

/// What a chain goes on with, behind its first operand.
#[cycle(phrases)]
#[tactic(auto, using(crate::proofs::ExpSteps::chained_steps))]
fn chained(
    alloc: Global,
    lexemes: &mut Lexemes<'_>,
    fixities: &mut Fixities,
    levels: u32,
    at: At,
    chain: Chain,
    first: Tall<FullExp>,
) -> Result<Tall<FullExp>, Stop>
    ensures same { OnOk result (fixities.new ≡ fixities.old) }
    ensures reads { Reads (chained levels (below levels) fixities.old at chain first)
        lexemes.old.rest.now result lexemes.new.rest.now }
{
    let mut left = first;
    while lexemes.sees(chain.word()) {
        lexemes.take();
        left = beside(alloc, lexemes, fixities, levels, at, chain, left)?;
    }
    Ok(left)
}

/// The word of a chain, behind it, with what stands on both its sides.
#[cycle(phrases)]
#[tactic(auto, using(crate::proofs::ExpSteps::beside_steps))]
fn beside(
    alloc: Global,
    lexemes: &mut Lexemes<'_>,
    fixities: &mut Fixities,
    levels: u32,
    at: At,
    chain: Chain,
    left: Tall<FullExp>,
) -> Result<Tall<FullExp>, Stop>
    ensures same { OnOk result (fixities.new ≡ fixities.old) }
    ensures reads { Reads (beside levels (below levels) fixities.old at chain left)
        lexemes.old.rest.now result lexemes.new.rest.now }
{
    let left = lower(left, levels)?;
    let right = side(alloc, lexemes, fixities, levels - 1, chain);
    let (left, right) = both(left, right)?;
    Ok(linked(alloc, chain, at, left, right)?)
}

/// What stands on each side of the word of a chain.
#[cycle(phrases)]
fn side(
    alloc: Global,
    lexemes: &mut Lexemes<'_>,
    fixities: &mut Fixities,
    levels: u32,
    chain: Chain,
) -> Result<Tall<FullExp>, Stop>
    ensures same { OnOk result (fixities.new ≡ fixities.old) }
    ensures reads { Reads (side (level levels) fixities.old chain)
        lexemes.old.rest.now result lexemes.new.rest.now }
{
    match chain {
        Chain::Conjunction => operand(alloc, lexemes, fixities, levels),
        Chain::Disjunction => conjunction(alloc, lexemes, fixities, levels),
    }
}

/// What stands on a side of `andalso`, behind its first lexeme.
#[cycle(phrases)]
#[tactic(auto, using(crate::proofs::ExpSteps::operand_steps))]
fn operand_after(
    alloc: Global,
    lexemes: &mut Lexemes<'_>,
    fixities: &mut Fixities,
    levels: u32,
    start: &Lexeme,
) -> Result<Tall<FullExp>, Stop>
    ensures same { OnOk result (fixities.new ≡ fixities.old) }
    ensures reads { Reads (operand_after levels (below levels) fixities.old start.now)
        lexemes.old.rest.now result lexemes.new.rest.now }
{
    if !starts_prefix(word(start)) {
        return typed(alloc, lexemes, fixities, levels, start);
    }
    if levels == 0 {
        return Err(Stop::TooDeep);
    }
    prefix_form(alloc, lexemes, fixities, levels - 1, at(start), word(start))
}

/// A run with its constraints, behind its first lexeme.
#[cycle(phrases)]
#[tactic(auto, unfolding(crate::specs::Expressions::typed_of))]
fn typed(
    alloc: Global,
    lexemes: &mut Lexemes<'_>,
    fixities: &mut Fixities,
    levels: u32,
    start: &Lexeme,
) -> Result<Tall<FullExp>, Stop>
    ensures same { OnOk result (fixities.new ≡ fixities.old) }
    ensures reads { Reads (typed_of levels (below levels) fixities.old start.now)
        lexemes.old.rest.now result lexemes.new.rest.now }
{
    let first = atexp(alloc, lexemes, fixities, levels, start)?;
    let run = run_from(alloc, lexemes, fixities, levels, at(start), first)?;
    constraints(alloc, lexemes, levels, at(start), run)
}

/// An expression with its handler, if one stands behind it.
#[cycle(phrases)]
#[tactic(auto, using(crate::proofs::ExpSteps::handled_steps))]
fn handled(
    alloc: Global,
    lexemes: &mut Lexemes<'_>,
    fixities: &mut Fixities,
    levels: u32,
    at: At,
    left: Tall<FullExp>,
) -> Result<Tall<FullExp>, Stop>
    ensures same { OnOk result (fixities.new ≡ fixities.old) }
    ensures reads { Reads (handled levels (below levels) fixities.old at left)
        lexemes.old.rest.now result lexemes.new.rest.now }
{
    if !lexemes.sees(Word::Handle) {
        return Ok(left);
    }
    lexemes.take();
    handle_exp(alloc, lexemes, fixities, levels, at, left)
}

/// A handler behind its word, with the expression before it.
#[cycle(phrases)]
#[tactic(auto, using(crate::proofs::ExpSteps::handle_steps))]
fn handle_exp(
    alloc: Global,
    lexemes: &mut Lexemes<'_>,
    fixities: &mut Fixities,
    levels: u32,
    at: At,
    left: Tall<FullExp>,
) -> Result<Tall<FullExp>, Stop>
    ensures same { OnOk result (fixities.new ≡ fixities.old) }
    ensures reads { Reads (handle_exp levels (below levels) fixities.old at left)
        lexemes.old.rest.now result lexemes.new.rest.now }
{
    let left = lower(left, levels)?;
    let rules = rules(alloc, lexemes, fixities, levels - 1);
    let (left, rules) = both(left, rules)?;
    Ok(guarded(alloc, at, left, rules)?)
}

/// A form that reaches to the right, behind its first word.
#[cycle(phrases)]
fn prefix_form(
    alloc: Global,
    lexemes: &mut Lexemes<'_>,
    fixities: &mut Fixities,
    levels: u32,
    at: At,
    word: Option<Word>,
) -> Result<Tall<FullExp>, Stop>
    ensures same { OnOk result (fixities.new ≡ fixities.old) }
    ensures reads { Reads (prefix_word (level levels) fixities.old at word)
        lexemes.old.rest.now result lexemes.new.rest.now }
{
    match word {
        Some(Word::Raise) => raise_exp(alloc, lexemes, fixities, levels, at),
        Some(Word::If) => if_exp(alloc, lexemes, fixities, levels, at),
        Some(Word::While) => while_exp(alloc, lexemes, fixities, levels, at),
        Some(Word::Case) => case_exp(alloc, lexemes, fixities, levels, at),
        Some(Word::Fn) => fn_of(alloc, lexemes, fixities, levels, at),
        _ => Err(Stop::Refused),
    }
}

/// `raise exp`
#[cycle(phrases)]
#[tactic(auto, unfolding(crate::specs::Expressions::raise_exp))]
fn raise_exp(
    alloc: Global,
    lexemes: &mut Lexemes<'_>,
    fixities: &mut Fixities,
    levels: u32,
    at: At,
) -> Result<Tall<FullExp>, Stop>
    ensures same { OnOk result (fixities.new ≡ fixities.old) }
    ensures reads { Reads (raise_exp (level levels) fixities.old at)
        lexemes.old.rest.now result lexemes.new.rest.now }
{
    let inner = exp(alloc, lexemes, fixities, levels)?;
    Ok(raised(alloc, at, inner)?)
}

/// An expression behind a word.
#[cycle(phrases)]
#[tactic(auto, unfolding(crate::specs::Expressions::exp_behind))]
pub fn exp_behind(
    alloc: Global,
    lexemes: &mut Lexemes<'_>,
    fixities: &mut Fixities,
    levels: u32,
    word: Word,
) -> Result<Tall<FullExp>, Stop>
    ensures same { OnOk result (fixities.new ≡ fixities.old) }
    ensures reads { Reads (exp_behind (level levels) fixities.old word)
        lexemes.old.rest.now result lexemes.new.rest.now }
{
    lexemes.expect(word)?;
    exp(alloc, lexemes, fixities, levels)
}

/// `if exp then exp else exp`
#[cycle(phrases)]
#[tactic(auto, unfolding(crate::specs::Expressions::if_exp))]
fn if_exp(
    alloc: Global,
    lexemes: &mut Lexemes<'_>,
    fixities: &mut Fixities,
    levels: u32,
    at: At,
) -> Result<Tall<FullExp>, Stop>
    ensures same { OnOk result (fixities.new ≡ fixities.old) }
    ensures reads { Reads (if_exp (level levels) fixities.old at)
        lexemes.old.rest.now result lexemes.new.rest.now }
{
    let test = exp(alloc, lexemes, fixities, levels)?;
    let yes = exp_behind(alloc, lexemes, fixities, levels, Word::Then);
    let (test, yes) = both(test, yes)?;
    let no = exp_behind(alloc, lexemes, fixities, levels, Word::Else);
    let ((test, yes), no) = both((test, yes), no)?;
    Ok(branched(alloc, at, test, yes, no)?)
}

/// `while exp do exp`
#[cycle(phrases)]
#[tactic(auto, unfolding(crate::specs::Expressions::while_exp))]
fn while_exp(
    alloc: Global,
    lexemes: &mut Lexemes<'_>,
    fixities: &mut Fixities,
    levels: u32,
    at: At,
) -> Result<Tall<FullExp>, Stop>
    ensures same { OnOk result (fixities.new ≡ fixities.old) }
    ensures reads { Reads (while_exp (level levels) fixities.old at)
        lexemes.old.rest.now result lexemes.new.rest.now }
{
    let test = exp(alloc, lexemes, fixities, levels)?;
    let body = exp_behind(alloc, lexemes, fixities, levels, Word::Do);
    let (test, body) = both(test, body)?;
    Ok(repeated(alloc, at, test, body)?)
}

/// A match behind `of`.
#[cycle(phrases)]
#[tactic(auto, unfolding(crate::specs::Expressions::rules_behind))]
fn rules_behind(
    alloc: Global,
    lexemes: &mut Lexemes<'_>,
    fixities: &mut Fixities,
    levels: u32,
) -> Result<Tall<List<FullRule>>, Stop>
    ensures same { OnOk result (fixities.new ≡ fixities.old) }
    ensures reads { Reads (rules_behind (level levels) fixities.old)
        lexemes.old.rest.now result lexemes.new.rest.now }
{
    lexemes.expect(Word::Of)?;
    rules(alloc, lexemes, fixities, levels)
}

/// `case exp of match`
#[cycle(phrases)]
#[tactic(auto, unfolding(crate::specs::Expressions::case_exp))]
fn case_exp(
    alloc: Global,
    lexemes: &mut Lexemes<'_>,
    fixities: &mut Fixities,
    levels: u32,
    at: At,
) -> Result<Tall<FullExp>, Stop>
    ensures same { OnOk result (fixities.new ≡ fixities.old) }
    ensures reads { Reads (case_exp (level levels) fixities.old at)
        lexemes.old.rest.now result lexemes.new.rest.now }
{
    let subject = exp(alloc, lexemes, fixities, levels)?;
    let rules = rules_behind(alloc, lexemes, fixities, levels);
    let (subject, rules) = both(subject, rules)?;
    Ok(cased(alloc, at, subject, rules)?)
}

/// `fn match`
#[cycle(phrases)]
#[tactic(auto, unfolding(crate::specs::Expressions::fn_of))]
pub fn fn_of(
    alloc: Global,
    lexemes: &mut Lexemes<'_>,
    fixities: &mut Fixities,
    levels: u32,
    at: At,
) -> Result<Tall<FullExp>, Stop>
    ensures same { OnOk result (fixities.new ≡ fixities.old) }
    ensures reads { Reads (fn_of (level levels) fixities.old at)
        lexemes.old.rest.now result lexemes.new.rest.now }
{
    let rules = rules(alloc, lexemes, fixities, levels)?;
    Ok(one_above(FullExp::Fn(rules.tree, at), rules.height)?)
}

/// A match: it takes each `|` that follows.
#[cycle(phrases)]
#[tactic(auto, unfolding(crate::specs::Expressions::rules_of))]
pub fn rules(
    alloc: Global,
    lexemes: &mut Lexemes<'_>,
    fixities: &mut Fixities,
    levels: u32,
) -> Result<Tall<List<FullRule>>, Stop>
    ensures same { OnOk result (fixities.new ≡ fixities.old) }
    ensures reads { Reads (rules_of (level levels) fixities.old)
        lexemes.old.rest.now result lexemes.new.rest.now }
{
    let first = rule(alloc, lexemes, fixities, levels)?;
    more_rules(alloc, lexemes, fixities, levels, one(alloc, first)?)
}

/// Further rules of a match.
#[cycle(phrases)]
#[tactic(auto, using(phrase_reading::proofs::Steps::further_steps))]
fn more_rules(
    alloc: Global,
    lexemes: &mut Lexemes<'_>,
    fixities: &mut Fixities,
    levels: u32,
    first: Tall<List<FullRule>>,
) -> Result<Tall<List<FullRule>>, Stop>
    ensures same { OnOk result (fixities.new ≡ fixities.old) }
    ensures reads { Reads (more_rules (level levels) fixities.old first)
        lexemes.old.rest.now result lexemes.new.rest.now }
{
    let mut found = first;
    while lexemes.sees(Word::Bar) {
        lexemes.take();
        let next = rule(alloc, lexemes, fixities, levels)?;
        found = more(found, next)?;
    }
    Ok(found)
}

/// `pat => exp`
#[cycle(phrases)]
#[tactic(auto, unfolding(crate::specs::Expressions::rule))]
fn rule(
    alloc: Global,
    lexemes: &mut Lexemes<'_>,
    fixities: &mut Fixities,
    levels: u32,
) -> Result<Tall<FullRule>, Stop>
    ensures same { OnOk result (fixities.new ≡ fixities.old) }
    ensures reads { Reads (rule (level levels) fixities.old)
        lexemes.old.rest.now result lexemes.new.rest.now }
{
    let start = first_of_pat(lexemes, fixities)?;
    let pat = pat_after(alloc, lexemes, fixities, levels, start)?;
    let exp = exp_behind(alloc, lexemes, fixities, levels, Word::DoubleArrow);
    let (pat, exp) = both(pat, exp)?;
    Ok(Tall {
        height: pat.height.max(exp.height),
        tree: FullRule {
            pat: pat.tree,
            exp: exp.tree,
            at: at(start),
        },
    })
}
