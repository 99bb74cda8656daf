//! The public calls that read a phrase at a cursor.

ghost use Rattle.std.specs.Prelude.{◌≡◌, ◌-◌, drop, length, take, OnOk};
ghost use Rattle.core_parser.specs.Cursors.{state, because, FailsBefore, Parses, ParsesHere, ReadsFrom, Settles, ParsesDec, ParsesDecHere, ReadsDecFrom};
ghost use Rattle.core_expressions.specs.Levels.{exp, dec};
ghost use Rattle.core_patterns.specs.Patterns.{pat};
ghost use Rattle.core_bindings.specs.Decs.{ReadsDec};
ghost use Rattle.core_types.specs.Types.{ty};

use crate::cursor::Cursor;
use crate::failure::{Failure, failure_of, fault_of};
use cm_base::Fault;
use core_expressions::decs::dec;
use core_expressions::exp::exp;
use core_patterns::patterns::pat;
use core_types::types::ty;
use expression_parts::exp_starts::first_of_dec;
use infix_names::fixity::Fixities;
use phrase_reading::lexemes::Lexemes;
use phrase_reading::stop::Stop;
use phrase_reading::tall::Tall;
use sml_lexer::Lexeme;
use sml_trees::{FullDec, FullExp, FullPat, FullTy};
use std::alloc::Global;

/// What was read from a place in lexemes on, and how many of these stand before the place behind it.
#[derive(Drop)]
pub struct Reading<T> {
    pub made: Result<Tall<T>, Stop>,
    pub taken: usize,
}

/// The lexemes from a place on.
#[tactic(auto, using(crate::proofs::CursorSteps::all_gone))]
fn behind(all: &[Lexeme], taken: usize) -> &[Lexeme]
    ensures { result.now ≡ drop taken all.now }
{
    if taken <= all.len() {
        all.split_at(taken).1
    } else {
        &[]
    }
}

/// How many lexemes stand before those that are left.
fn count_before(all: &[Lexeme], left: &[Lexeme]) -> usize
    ensures { result ≡ length all.now - length left.now }
{
    all.len().saturating_sub(left.len())
}

/// A type from a place on.
fn ty_from(alloc: Global, all: &[Lexeme], taken: usize, levels: u32) -> Reading<FullTy>
    ensures { ReadsFrom (ty levels) all.now taken result }
{
    let mut lexemes = Lexemes {
        rest: behind(all, taken),
    };
    let made = ty(alloc, &mut lexemes, levels);
    Reading {
        made,
        taken: count_before(all, lexemes.rest),
    }
}

/// A pattern from a place on.
fn pat_from(
    alloc: Global,
    all: &[Lexeme],
    taken: usize,
    fixities: &Fixities,
    levels: u32,
) -> Reading<FullPat>
    ensures { ReadsFrom (pat fixities.now levels) all.now taken result }
{
    let mut lexemes = Lexemes {
        rest: behind(all, taken),
    };
    let made = pat(alloc, &mut lexemes, fixities, levels);
    Reading {
        made,
        taken: count_before(all, lexemes.rest),
    }
}

/// An expression from a place on.
fn exp_from(
    alloc: Global,
    all: &[Lexeme],
    taken: usize,
    fixities: &mut Fixities,
    levels: u32,
) -> Reading<FullExp>
    ensures same { OnOk result.made (fixities.new ≡ fixities.old) }
    ensures reads { ReadsFrom (exp levels fixities.old) all.now taken result }
{
    let mut lexemes = Lexemes {
        rest: behind(all, taken),
    };
    let made = exp(alloc, &mut lexemes, fixities, levels);
    Reading {
        made,
        taken: count_before(all, lexemes.rest),
    }
}

/// One declaration.
#[tactic(auto, unfolding(core_expressions::specs::Levels::dec))]
fn one_dec(
    alloc: Global,
    lexemes: &mut Lexemes<'_>,
    fixities: &mut Fixities,
    levels: u32,
) -> Result<Tall<FullDec>, Stop>
    ensures kept { OnOk result (take (length fixities.old) fixities.new ≡ fixities.old) }
    ensures reads { ReadsDec (dec levels fixities.old) lexemes.old.rest.now result fixities.new lexemes.new.rest.now }
{
    let first = first_of_dec(lexemes)?;
    dec(alloc, lexemes, fixities, levels, first)
}

/// One declaration from a place on.
fn dec_from(
    alloc: Global,
    all: &[Lexeme],
    taken: usize,
    fixities: &mut Fixities,
    levels: u32,
) -> Reading<FullDec>
    ensures kept { OnOk result.made (take (length fixities.old) fixities.new ≡ fixities.old) }
    ensures reads { ReadsDecFrom (dec levels fixities.old) all.now taken result fixities.new }
{
    let mut lexemes = Lexemes {
        rest: behind(all, taken),
    };
    let made = one_dec(alloc, &mut lexemes, fixities, levels);
    Reading {
        made,
        taken: count_before(all, lexemes.rest),
    }
}

/// Why a cursor has failed that answers this fault, where it would be that failure with memory enough.
fn because(fault: &Fault, failure: Failure) -> Failure
    ensures { result ≡ because fault.now failure }
{
    match fault {
        Fault::Diag(_) => failure,
        Fault::NoMemory => Failure::NoMemory,
    }
}

/// Lets a cursor fail where reading stopped, and answers its fault.
fn fail(cursor: &mut Cursor, stop: Stop, taken: usize) -> Fault
    ensures { FailsBefore stop (drop taken cursor.old.lexemes) (state cursor.old) result (state cursor.new) }
{
    let all = cursor.lexemes.as_slice();
    let failure = failure_of(all, stop, behind(all, taken));
    let fault = fault_of(cursor.alloc, &cursor.file, failure);
    cursor.failed = Some(because(&fault, failure));
    cursor.taken = cursor.lexemes.len();
    cursor.scopes.clear();
    fault
}

/// Moves a cursor behind what was read, or lets it fail.
fn settle<T: Drop>(cursor: &mut Cursor, reading: Reading<T>) -> Result<T, Fault>
    ensures { Settles reading.made (drop reading.taken cursor.old.lexemes) (state cursor.old) result
        (state cursor.new) }
{
    let Reading { made, taken } = reading;
    match made {
        Ok(made) => {
            cursor.taken = taken;
            Ok(made.tree)
        }
        Err(stop) => Err(fail(cursor, stop, taken)),
    }
}

/// Reads a type at a cursor that hasn't failed.
fn ty_here(at: &mut Cursor) -> Result<FullTy, Fault>
    ensures { ParsesHere (ty (128 - at.old.nest)) (state at.old) result (state at.new) }
{
    let levels = at.levels();
    let reading = ty_from(at.alloc, at.lexemes.as_slice(), at.taken, levels);
    settle(at, reading)
}

/// Reads a pattern at a cursor that hasn't failed.
fn pat_here(at: &mut Cursor) -> Result<FullPat, Fault>
    ensures { ParsesHere (pat at.old.fixities (128 - at.old.nest)) (state at.old) result (state at.new) }
{
    let levels = at.levels();
    let reading = pat_from(
        at.alloc,
        at.lexemes.as_slice(),
        at.taken,
        &at.fixities,
        levels,
    );
    settle(at, reading)
}

/// Reads an expression at a cursor that hasn't failed.
fn exp_here(at: &mut Cursor) -> Result<FullExp, Fault>
    ensures { ParsesHere (exp (128 - at.old.nest) at.old.fixities) (state at.old) result (state at.new) }
{
    let levels = at.levels();
    let reading = exp_from(
        at.alloc,
        at.lexemes.as_slice(),
        at.taken,
        &mut at.fixities,
        levels,
    );
    settle(at, reading)
}

/// Reads a declaration at a cursor that hasn't failed.
fn dec_here(at: &mut Cursor) -> Result<FullDec, Fault>
    ensures kept { OnOk result (take (length at.old.fixities) at.new.fixities ≡ at.old.fixities) }
    ensures here { ParsesDecHere (dec (128 - at.old.nest) at.old.fixities) (state at.old) result (state at.new) }
{
    let levels = at.levels();
    let reading = dec_from(
        at.alloc,
        at.lexemes.as_slice(),
        at.taken,
        &mut at.fixities,
        levels,
    );
    settle(at, reading)
}

/// Reads a type: the longest run of lexemes at the cursor's place all of whose beginnings are fronts of a type. Where
/// it isn't one, that is 20 at the lexeme behind it or at the last one, and where it nests more than 128 levels with
/// those around it, 12. After a refusal the cursor has failed, and answers the same again.
pub fn parse_ty(at: &mut Cursor) -> Result<FullTy, Fault>
    ensures { Parses (λ levels fixities. ty levels) (state at.old) result (state at.new) }
{
    match at.failed {
        Some(failure) => Err(fault_of(at.alloc, &at.file, failure)),
        None => ty_here(at),
    }
}

/// Reads a pattern, as `parse_ty` a type, with the infix status of names at the cursor's place.
pub fn parse_pat(at: &mut Cursor) -> Result<FullPat, Fault>
    ensures { Parses (λ levels fixities. pat fixities levels) (state at.old) result (state at.new) }
{
    match at.failed {
        Some(failure) => Err(fault_of(at.alloc, &at.file, failure)),
        None => pat_here(at),
    }
}

/// Reads an expression, as `parse_pat` a pattern.
pub fn parse_exp(at: &mut Cursor) -> Result<FullExp, Fault>
    ensures { Parses exp (state at.old) result (state at.new) }
{
    match at.failed {
        Some(failure) => Err(fault_of(at.alloc, &at.file, failure)),
        None => exp_here(at),
    }
}

/// Reads one declaration, as `parse_pat` a pattern. What it declares infix, or nonfix, is so from there on, behind all
/// that was so before.
pub fn parse_dec(at: &mut Cursor) -> Result<FullDec, Fault>
    ensures kept { OnOk result (take (length at.old.fixities) at.new.fixities ≡ at.old.fixities) }
    ensures parses { ParsesDec dec (state at.old) result (state at.new) }
{
    match at.failed {
        Some(failure) => Err(fault_of(at.alloc, &at.file, failure)),
        None => dec_here(at),
    }
}
