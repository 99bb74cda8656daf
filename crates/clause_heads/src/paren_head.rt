//! The heads of the clauses of functions that begin with a parenthesis.

ghost use Rattle.std.specs.Prelude.{◌≡◌, ◌<◌, ◌≤◌, None, IfOk, MatchResult};
ghost use Rattle.sml_trees.specs.declared.full_pat.FullPat.TheVariants.{Paren};
ghost use Rattle.infix_names.specs.Fixities.{fixity_of};
ghost use Rattle.phrase_reading.specs.Reads.{Reads};
ghost use Rattle.grammars.specs.Grammar.{begins, head_or};
ghost use Rattle.phrase_reading.specs.Sized.{over};
ghost use Rattle.core_patterns.specs.Patterns.{operand_height, start};
ghost use Rattle.clause_heads.specs.Heads.{closes, ends_or_goes_on, too_high, closed_head, pair_run, pair_arguments, pair_left, pair_head, behind_run, pair_behind, pair_from, left_from, pair_of, is_named, parens_behind, parens_from, parens_some, unit_head, parens_head};

use crate::head::{arguments, first_of_atpat, infix_from, infix_head};
use crate::heads::{Wanted, bare, operator, sees_bare, sees_operator};
use cm_base::NoMemory;
use core_patterns::atpats::behind_first;
use core_patterns::constraints::typed;
use core_patterns::operand::{Operand, Run, plain, start, with_operand};
use core_patterns::pat_starts::{going, takes_up};
use core_patterns::patterns::{behind_operand, operand_after, run_of};
use infix_names::fixity::Fixities;
use phrase_reading::lexeme;
use phrase_reading::lexemes::Lexemes;
use phrase_reading::stop::Stop;
use phrase_reading::tall::{Tall, boxed, lower, one_above};
use sml_lexer::Word;
use sml_trees::held::both;
use sml_trees::{At, Fixity, FullHead, FullPat, Name};
use std::alloc::Global;

/// A pattern with parentheses round it.
fn paren(alloc: Global, start: At, inner: Tall<FullPat>) -> Result<Tall<FullPat>, Stop>
    ensures { MatchResult result
        (λ made. made ≡ over (λ pat. Paren pat start) inner)
        (λ stop. stop ≡ Stop.NoMemory) }
{
    let inner = boxed(alloc, inner)?;
    Ok(one_above(FullPat::Paren(inner.tree, start), inner.height)?)
}

/// Two patterns with an infix name between them.
#[derive(Drop)]
pub struct Pair {
    /// Where the first begins.
    pub first: At,
    pub left: Operand,
    pub called: Name,
    pub fixity: Fixity,
    /// Where the second begins.
    pub second: At,
    pub right: Operand,
}

impl Pair {
    /// The two and the name, as a run of a pattern.
    fn run(self, alloc: Global) -> Result<Run, NoMemory>
        ensures { IfOk result (λ run. run ≡ pair_run self) }
    {
        let first = start(alloc, self.first, self.left)?;
        with_operand(
            alloc,
            first,
            self.called,
            self.fixity,
            self.second,
            self.right,
        )
    }
}

/// Where no level is left for the parentheses round what was read: whatever goes on with it or closes it is one too
/// many.
#[tactic(auto, using(crate::proofs::HeadSteps::too_high_steps))]
fn too_high(
    lexemes: &mut Lexemes<'_>,
    fixities: &Fixities,
    run: &Run,
    named: bool,
) -> Result<Tall<FullHead>, Stop>
    ensures { Reads (too_high fixities.now run.now named) lexemes.old.rest.now result lexemes.new.rest.now }
{
    if ends_or_goes_on(lexemes, fixities, run, named) {
        lexemes.take();
        return Err(Stop::TooDeep);
    }
    Err(Stop::Refused)
}

/// Whether what was read goes on with the next lexeme, or ends before it.
fn ends_or_goes_on(lexemes: &Lexemes<'_>, fixities: &Fixities, run: &Run, named: bool) -> bool
    ensures { result ≡ begins (ends_or_goes_on fixities.now run.now named) (head_or lexemes.now.rest.now None) }
{
    match lexemes.peek() {
        Some(next) => {
            takes_up(fixities, run.takes, run.ops.as_slice(), next)
                || closes(lexeme::word(next))
                || (named && lexeme::is(Word::As, next))
        }
        None => false,
    }
}

/// Whether a mark closes what stands in parentheses, or goes on with it behind a whole pattern.
fn closes(word: Option<Word>) -> bool
    ensures { result ≡ closes word }
{
    match word {
        Some(Word::Close) => true,
        Some(Word::Comma) => true,
        Some(Word::Colon) => true,
        _ => false,
    }
}

/// Behind a pattern that stands in parentheses: the rest up to the closing one, and then an infix head.
#[tactic(auto, unfolding(crate::specs::Heads::closed_head))]
fn closed_head(
    alloc: Global,
    lexemes: &mut Lexemes<'_>,
    fixities: &Fixities,
    levels: u32,
    wanted: &Wanted,
    place: At,
    inner: Tall<FullPat>,
) -> Result<Tall<FullHead>, Stop>
    requires { inner.height < levels }
    ensures { Reads (closed_head levels fixities.now wanted.now place inner) lexemes.old.rest.now
        result lexemes.new.rest.now }
{
    let left = behind_first(alloc, lexemes, fixities, place, inner, levels)?;
    infix_from(alloc, lexemes, fixities, levels, wanted, left)
}

/// The arguments of an infix head in parentheses.
#[tactic(auto, unfolding(crate::specs::Heads::pair_arguments))]
fn pair_arguments(
    alloc: Global,
    lexemes: &mut Lexemes<'_>,
    fixities: &Fixities,
    levels: u32,
    wanted: &Wanted,
    pair: Pair,
) -> Result<Tall<FullHead>, Stop>
    ensures { Reads (pair_arguments levels fixities.now wanted.now pair) lexemes.old.rest.now
        result lexemes.new.rest.now }
{
    let args = arguments(alloc, lexemes, fixities, levels, wanted, 1);
    let (pair, args) = both(pair, args)?;
    let left = plain(pair.first, pair.left);
    let right = plain(pair.second, pair.right);
    Ok(Tall {
        height: left.height.max(right.height).max(args.height),
        tree: FullHead::ParenInfix(left.tree, pair.called, right.tree, args.tree),
    })
}

/// Two patterns with an infix name between them and parentheses round them, as the first pattern of another head.
#[tactic(auto, using(crate::proofs::HeadSteps::lower_steps), unfolding(crate::specs::Heads::pair_left))]
fn pair_left(
    alloc: Global,
    lexemes: &mut Lexemes<'_>,
    fixities: &Fixities,
    levels: u32,
    place: At,
    pair: Pair,
    called: Name,
) -> Result<Tall<FullHead>, Stop>
    ensures { Reads (pair_left levels fixities.now place pair called) lexemes.old.rest.now
        result lexemes.new.rest.now }
{
    let first = pair.first;
    let run = pair.run(alloc)?;
    let inner = one_above(FullPat::Run(run.items, first), run.height)?;
    let inner = lower(inner, levels)?;
    let left = paren(alloc, place, inner)?;
    infix_head(alloc, lexemes, fixities, levels, left, called)
}

/// Behind the parenthesis that closes an infix head: an infix name, or further arguments.
#[tactic(auto, using(phrase_reading::proofs::NameSteps::if_taken_steps), unfolding(crate::specs::Heads::pair_head))]
fn pair_head(
    alloc: Global,
    lexemes: &mut Lexemes<'_>,
    fixities: &Fixities,
    levels: u32,
    wanted: &Wanted,
    place: At,
    pair: Pair,
) -> Result<Tall<FullHead>, Stop>
    ensures { Reads (pair_head levels fixities.now wanted.now place pair) lexemes.old.rest.now
        result lexemes.new.rest.now }
{
    if sees_bare(lexemes, fixities, wanted) {
        let called = bare(lexemes, fixities, wanted);
        let (pair, called) = both(pair, called)?;
        return pair_left(alloc, lexemes, fixities, levels, place, pair, called);
    }
    pair_arguments(alloc, lexemes, fixities, levels, wanted, pair)
}

/// The rest of a pattern that begins with a run of two.
#[tactic(auto, using(crate::proofs::HeadSteps::behind_run_steps))]
fn behind_run(
    alloc: Global,
    lexemes: &mut Lexemes<'_>,
    fixities: &Fixities,
    levels: u32,
    place: At,
    run: Run,
) -> Result<Tall<FullPat>, Stop>
    requires { run.height < levels }
    ensures reads { Reads (behind_run fixities.now levels place run) lexemes.old.rest.now result lexemes.new.rest.now }
    ensures low { IfOk result (λ made. made.height ≤ levels) }
{
    if going(lexemes, fixities, run.takes, run.ops.as_slice()) {
        return run_of(alloc, lexemes, fixities, place, run, levels);
    }
    let whole = Tall {
        tree: FullPat::Run(run.items, place),
        height: run.height + 1,
    };
    typed(alloc, lexemes, place, whole, levels)
}

/// The beginning of a longer pattern: two patterns with an infix name between them.
#[tactic(auto, using(crate::proofs::HeadSteps::pair_behind_steps))]
fn pair_behind(
    alloc: Global,
    lexemes: &mut Lexemes<'_>,
    fixities: &Fixities,
    levels: u32,
    wanted: &Wanted,
    place: At,
    pair: Pair,
) -> Result<Tall<FullHead>, Stop>
    ensures { Reads (pair_behind levels fixities.now wanted.now place pair) lexemes.old.rest.now
        result lexemes.new.rest.now }
{
    let first = pair.first;
    let run = pair.run(alloc)?;
    if run.height < levels && run.height < levels - 1 {
        let inner = behind_run(alloc, lexemes, fixities, levels - 1, first, run)?;
        return closed_head(alloc, lexemes, fixities, levels, wanted, place, inner);
    }
    too_high(lexemes, fixities, &run, false)
}

/// Behind both patterns: the closing parenthesis, or more of a pattern.
#[tactic(auto, using(phrase_reading::proofs::NameSteps::mark_steps), unfolding(crate::specs::Heads::pair_from))]
fn pair_from(
    alloc: Global,
    lexemes: &mut Lexemes<'_>,
    fixities: &Fixities,
    levels: u32,
    wanted: &Wanted,
    place: At,
    pair: Pair,
) -> Result<Tall<FullHead>, Stop>
    ensures { Reads (pair_from levels fixities.now wanted.now place pair) lexemes.old.rest.now
        result lexemes.new.rest.now }
{
    if lexemes.sees(Word::Close) {
        lexemes.take();
        return pair_head(alloc, lexemes, fixities, levels, wanted, place, pair);
    }
    if wanted.may_be_bare(fixities) {
        return pair_behind(alloc, lexemes, fixities, levels, wanted, place, pair);
    }
    Err(Stop::Refused)
}

/// An operand, and where it begins.
#[derive(Drop)]
pub struct Left {
    pub first: At,
    pub operand: Operand,
}

/// An atomic pattern, and where it begins.
#[tactic(auto, unfolding(crate::specs::Heads::left_from))]
fn left_from(
    alloc: Global,
    lexemes: &mut Lexemes<'_>,
    fixities: &Fixities,
    levels: u32,
) -> Result<Left, Stop>
    ensures { Reads (left_from levels fixities.now) lexemes.old.rest.now result lexemes.new.rest.now }
{
    let next = first_of_atpat(lexemes, fixities)?;
    let operand = operand_after(alloc, lexemes, fixities, next, levels)?;
    Ok(Left {
        first: lexeme::at(next),
        operand,
    })
}

/// Behind a parenthesis, an atomic pattern and an infix name.
#[tactic(auto, unfolding(crate::specs::Heads::pair_of))]
fn pair_of(
    alloc: Global,
    lexemes: &mut Lexemes<'_>,
    fixities: &Fixities,
    levels: u32,
    wanted: &Wanted,
    place: At,
    left: Left,
    called: Name,
) -> Result<Tall<FullHead>, Stop>
    ensures { Reads (pair_of levels fixities.now wanted.now place left called
        (fixity_of fixities.now called.text)) lexemes.old.rest.now result lexemes.new.rest.now }
{
    let Some(fixity) = fixities.find(&called.text) else {
        return Err(Stop::Refused);
    };
    let right = left_from(alloc, lexemes, fixities, levels);
    let ((left, called), right) = both((left, called), right)?;
    let pair = Pair {
        first: left.first,
        left: left.operand,
        called,
        fixity,
        second: right.first,
        right: right.operand,
    };
    pair_from(alloc, lexemes, fixities, levels, wanted, place, pair)
}

/// Whether an operand may have `as` behind it.
fn is_named(operand: &Operand) -> bool
    ensures { result ≡ is_named operand.now }
{
    match operand {
        Operand::Id(id) => matches!(id.long.parts.as_slice(), [_]),
        Operand::Other(_) => false,
    }
}

/// How many levels an operand nests.
fn operand_height(operand: &Operand) -> u32
    ensures { result ≡ operand_height operand.now }
{
    match operand {
        Operand::Id(_) => 1,
        Operand::Other(pat) => pat.height,
    }
}

/// The beginning of a longer pattern: an atomic one.
#[tactic(auto, using(crate::proofs::HeadSteps::parens_behind_steps))]
fn parens_behind(
    alloc: Global,
    lexemes: &mut Lexemes<'_>,
    fixities: &Fixities,
    levels: u32,
    wanted: &Wanted,
    place: At,
    left: Left,
) -> Result<Tall<FullHead>, Stop>
    ensures { Reads (parens_behind levels fixities.now wanted.now place left) lexemes.old.rest.now
        result lexemes.new.rest.now }
{
    if operand_height(&left.operand).max(1) < levels {
        let inner = behind_operand(
            alloc,
            lexemes,
            fixities,
            left.first,
            left.operand,
            levels - 1,
        )?;
        return closed_head(alloc, lexemes, fixities, levels, wanted, place, inner);
    }
    let named = is_named(&left.operand);
    let run = start(alloc, left.first, left.operand)?;
    too_high(lexemes, fixities, &run, named)
}

/// Behind a parenthesis and an atomic pattern: an infix name, or more of a pattern.
#[tactic(auto, using(phrase_reading::proofs::NameSteps::if_taken_steps), unfolding(crate::specs::Heads::parens_from))]
fn parens_from(
    alloc: Global,
    lexemes: &mut Lexemes<'_>,
    fixities: &Fixities,
    levels: u32,
    wanted: &Wanted,
    place: At,
    left: Left,
) -> Result<Tall<FullHead>, Stop>
    ensures { Reads (parens_from levels fixities.now wanted.now place left) lexemes.old.rest.now
        result lexemes.new.rest.now }
{
    if sees_operator(lexemes, fixities, wanted) {
        let called = operator(lexemes, fixities, wanted)?;
        return pair_of(
            alloc, lexemes, fixities, levels, wanted, place, left, called,
        );
    }
    if wanted.may_be_bare(fixities) {
        return parens_behind(alloc, lexemes, fixities, levels, wanted, place, left);
    }
    Err(Stop::Refused)
}

/// Behind a parenthesis: an atomic pattern, and what goes on from there.
#[tactic(auto, unfolding(crate::specs::Heads::parens_some))]
fn parens_some(
    alloc: Global,
    lexemes: &mut Lexemes<'_>,
    fixities: &Fixities,
    levels: u32,
    wanted: &Wanted,
    place: At,
) -> Result<Tall<FullHead>, Stop>
    ensures { Reads (parens_some levels fixities.now wanted.now place) lexemes.old.rest.now
        result lexemes.new.rest.now }
{
    let left = left_from(alloc, lexemes, fixities, levels)?;
    parens_from(alloc, lexemes, fixities, levels, wanted, place, left)
}

/// `()` as the first pattern of an infix head.
#[tactic(auto, unfolding(crate::specs::Heads::unit_head))]
fn unit_head(
    alloc: Global,
    lexemes: &mut Lexemes<'_>,
    fixities: &Fixities,
    levels: u32,
    wanted: &Wanted,
    place: At,
) -> Result<Tall<FullHead>, Stop>
    ensures { Reads (unit_head levels fixities.now wanted.now place) lexemes.old.rest.now
        result lexemes.new.rest.now }
{
    if levels == 0 {
        return Err(Stop::TooDeep);
    }
    let left = Tall {
        tree: FullPat::Unit(place),
        height: 1,
    };
    infix_from(alloc, lexemes, fixities, levels, wanted, left)
}

/// A head behind the parenthesis that it begins with.
#[tactic(auto, using(phrase_reading::proofs::NameSteps::mark_steps), unfolding(crate::specs::Heads::parens_head))]
pub fn parens_head(
    alloc: Global,
    lexemes: &mut Lexemes<'_>,
    fixities: &Fixities,
    levels: u32,
    wanted: &Wanted,
    place: At,
) -> Result<Tall<FullHead>, Stop>
    ensures { Reads (parens_head levels fixities.now wanted.now place) lexemes.old.rest.now
        result lexemes.new.rest.now }
{
    if wanted.may_be_bare(fixities) && lexemes.sees(Word::Close) {
        lexemes.take();
        return unit_head(alloc, lexemes, fixities, levels, wanted, place);
    }
    parens_some(alloc, lexemes, fixities, levels, wanted, place)
}
