//! Which items of a list of lines are chosen.

ghost use Rattle.std.specs.Prelude.{◌≡◌, ◌+◌, ◌-◌, ◌<◌, ◌^◌, length};
ghost use Rattle.cm_base.specs.Calls.{Gives};
ghost use Rattle.cm_conditions.specs.Chosen.{Selects};
ghost use Rattle.cm_conditions.specs.Splitting.{split_of, ended, closers_before};

use crate::evaluation::bad_condition;
use crate::line::{Line, LineBody};
use crate::names::Names;
use crate::selection::items_of;
use cm_base::{Def, Fault, List, ModName};
use std::alloc::Global;

/// How many blocks end from a line on that don't begin there, where so many do behind it. `None` for a directive that
/// belongs to one of them, where there is none.
fn closers_before(body: &LineBody, closers: usize) -> Option<usize>
    requires { closers < 2 ^ 64 - 1 }
    ensures { result ≡ closers_before body.now closers }
{
    match body {
        LineBody::Item(_) | LineBody::Error(_) => Some(closers),
        LineBody::Endif => Some(closers + 1),
        LineBody::If(_) => closers.checked_sub(1),
        LineBody::Elif(_) | LineBody::Else => { if closers == 0 { None } else { Some(closers) } }
    }
}

/// How many lines come before the first that the lines behind it don't close.
fn whole_len(lines: &[Line]) -> usize
    ensures { result + length (split_of lines.now).rest ≡ length lines.now }
{
    let mut whole = lines.len();
    let mut closers = 0usize;
    let mut rest = lines;
    while let Some((line, before)) = rest.split_last() {
        match closers_before(&line.body, closers) {
            Some(more) => closers = more,
            None => whole = before.len(),
        }
        rest = before;
    }
    whole
}

/// The answer for lines that chose these items, before those.
fn ended(alloc: Global, items: List<u32>, rest: &[Line]) -> Result<List<u32>, Fault>
    ensures { Gives result (ended rest.now items) }
{
    match rest.first() {
        None => Ok(items),
        Some(line) => Err(Fault::Diag(bad_condition(alloc, &line.at)?)),
    }
}

/// The numbers of the items that a list of lines chooses under these definitions, where these modules are there, in
/// the order of the lines. The first refusal in that order is the answer where there is one: 3 at an `#elif`, `#else`
/// or `#endif` without its `#if`, at one of the first two behind an `#else`, at an `#if` without its `#endif`, and at a
/// condition that is looked at and has no value; 4 at an `#error` in a chosen part, with its text.
pub fn select(
    alloc: Global,
    lines: &List<Line>,
    defs: &List<Def>,
    exports: &List<ModName>,
) -> Result<List<u32>, Fault>
    ensures { Selects defs.now exports.now lines.now result }
{
    let names = Names::of(alloc, defs.as_slice(), exports.as_slice())?;
    let lines = lines.as_slice();
    let (whole, rest) = lines.split_at(whole_len(lines));
    let items = items_of(alloc, &names, whole)?;
    ended(alloc, items, rest)
}
