//! Reads directives.

ghost use Rattle.std.specs.Prelude.{◌≡◌};
ghost use Rattle.cm_description.specs.Grammar.{allowed, body_of, word, mark, line};
ghost use Rattle.cm_description.specs.Modules.{condition_of};
ghost use Rattle.cm_description.specs.Seen.{IsBad, Reads, Says};

use crate::bytes::trimmed;
use crate::cursor::Cursor;
use crate::directive::Directive;
use crate::modules::names_module;
use crate::source::Source;
use crate::stop::Stop;
use crate::word::WordKind;
use cm_base::{Fault, Place, Text};
use cm_conditions::{Cond, Line, LineBody, read_condition};
use cm_lexer::{Token, TokenKind};
use std::alloc::Global;

/// A word that is wanted.
#[tactic(auto, using(crate::proofs::Steps::word_steps))]
pub(crate) fn word(
    source: &Source<'_>,
    cursor: &mut Cursor<'_>,
    wanted: WordKind,
) -> Result<Token, Stop>
    ensures { Reads (word wanted source.now.bytes.now) cursor.old.rest.now result cursor.new.rest.now }
{
    let Some(token) = cursor.word(source, wanted) else {
        return Err(Stop::Refused);
    };
    cursor.take();
    Ok(token)
}

/// A token of this kind.
#[tactic(auto, using(crate::proofs::Steps::mark_steps))]
pub(crate) fn mark(cursor: &mut Cursor<'_>, kind: TokenKind) -> Result<Token, Stop>
    ensures { Reads (mark kind) cursor.old.rest.now result cursor.new.rest.now }
{
    let Some(token) = cursor.mark(kind) else {
        return Err(Stop::Refused);
    };
    cursor.take();
    Ok(token)
}

/// What the fault of a condition is for its list.
fn bad_condition(fault: Fault) -> Stop
    ensures { IsBad fault result }
{
    match fault {
        Fault::Diag(_) => Stop::BadCondition,
        Fault::NoMemory => Stop::NoMemory,
    }
}

/// The condition of a text, if it is one that may stand here.
#[tactic(auto, using(crate::proofs::Conditions::condition_steps))]
fn condition(alloc: Global, at: &Place, text: &[u8], modules: bool) -> Result<Cond, Stop>
    ensures { Says (allowed modules (condition_of text.now)) result }
{
    let text = Text::from_bytes(alloc, text)?;
    let cond = match read_condition(alloc, at, &text) {
        Ok(cond) => cond,
        Err(fault) => return Err(bad_condition(fault)),
    };
    if modules || !names_module(&cond) {
        return Ok(cond);
    }
    Err(Stop::BadCondition)
}

/// What a directive with this rest says.
fn body(
    alloc: Global,
    at: &Place,
    directive: Directive,
    rest: &[u8],
    modules: bool,
) -> Result<LineBody, Stop>
    ensures { Says (body_of modules directive rest.now) result }
{
    match directive {
        Directive::If => Ok(LineBody::If(condition(alloc, at, rest, modules)?)),
        Directive::Elif => Ok(LineBody::Elif(condition(alloc, at, rest, modules)?)),
        Directive::Else => Ok(LineBody::Else),
        Directive::Endif => Ok(LineBody::Endif),
        Directive::Error => Ok(LineBody::Error(Text::from_bytes(alloc, trimmed(rest))?)),
    }
}

/// A directive, behind its token. Modules may be asked for where `modules` says so.
#[tactic(auto, unfolding(crate::specs::Grammar::line))]
pub(crate) fn line(
    alloc: Global,
    source: &Source<'_>,
    cursor: &mut Cursor<'_>,
    token: Token,
    modules: bool,
) -> Result<Line, Stop>
    ensures { Reads (line modules source.now.file.now source.now.bytes.now token)
        cursor.old.rest.now result cursor.new.rest.now }
{
    let rest = mark(cursor, TokenKind::Rest)?;
    let at = source.place(token)?;
    let directive = source.directive_at(token);
    let body = body(alloc, &at, directive, source.slice(rest), modules)?;
    Ok(Line { at, body })
}
