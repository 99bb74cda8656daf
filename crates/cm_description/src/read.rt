//! Reads the text of a description.

ghost use Rattle.std.specs.Prelude.{◌≡◌, ◌≤◌, ◌-◌, nat_lt, IfOk, length, take};
ghost use Rattle.std.specs.List.{list_any};
ghost use Rattle.cm_base.specs.Calls.{Gives};
ghost use Rattle.cm_lexer.specs.Tokens.{scan_of};
ghost use Rattle.cm_description.specs.Answers.{no_place, refusal_at, last_place, stop_place, is_end, passes_limits, lacks_exports, checked, IsWhole, ReadsDescription};
ghost use Rattle.cm_description.specs.Seen.{EndWith, ShowsBad, ShowsEnd};

use crate::cursor::Cursor;
use crate::description::{Description, Entry};
use crate::reader::description;
use crate::source::{Source, has_kind};
use crate::stop::Stop;
use cm_base::{Diag, Fault, List, NoMemory, Place, Text};
use cm_conditions::read_condition;
use cm_lexer::{Point, Scan, Token, TokenKind, scan};
use std::alloc::Global;

/// A refusal without names.
fn refusal_at(alloc: Global, number: u8, at: Place) -> Diag
    ensures { result ≡ refusal_at number at }
{
    Diag {
        number,
        at,
        names: List::new(alloc),
    }
}

/// The place of a line and a column of a file.
fn place_at(file: &Text, line: u32, col: u32) -> Result<Place, NoMemory>
    ensures { IfOk result (λ at. at ≡ record { file = file.now; line = line; col = col }) }
{
    Ok(Place {
        file: file.copy()?,
        line,
        col,
    })
}

/// The place of the last token that is no rest; 0:0 where there is none.
fn last_place(file: &Text, tokens: &[Token]) -> Result<Place, NoMemory>
    ensures { IfOk result (λ at. at ≡ last_place file.now (no_place file.now) tokens.now) }
{
    let mut line = 0;
    let mut col = 0;
    for token in tokens {
        if !has_kind(TokenKind::Rest, *token) {
            line = token.line;
            col = token.col;
        }
    }
    place_at(file, line, col)
}

/// Where a text stops, before the tokens that are left.
fn stop_place(file: &Text, scan: &Scan, rest: &[Token]) -> Result<Place, NoMemory>
    ensures { IfOk result (λ at. at ≡ stop_place file.now scan.now rest.now) }
{
    if let Some(token) = rest.first() {
        return place_at(file, token.line, token.col);
    }
    match scan.wrong {
        Some(Point { line, col, .. }) => place_at(file, line, col),
        None => last_place(file, scan.tokens.as_slice()),
    }
}

/// What is wrong with a directive that may not stand: its condition is none, and else asks for a module.
fn bad_directive(
    alloc: Global,
    source: &Source<'_>,
    directive: Token,
    rest: Token,
) -> Result<Diag, NoMemory>
    ensures { IfOk result
        (λ diag. ShowsBad source.now.file.now source.now.bytes.now directive rest diag) }
{
    let at = source.place(directive)?;
    let text = Text::from_bytes(alloc, source.slice(rest))?;
    match read_condition(alloc, &at, &text) {
        Ok(_) => Ok(refusal_at(alloc, 3, at)),
        Err(Fault::Diag(diag)) => Ok(diag),
        Err(Fault::NoMemory) => Err(NoMemory),
    }
}

/// The last two tokens.
fn last_two(tokens: &[Token]) -> (Token, Token)
    requires { 2 ≤ length tokens.now }
    ensures { EndWith tokens.now result.0 result.1 }
{
    let before = tokens.len() - 2;
    (tokens[before], tokens[before + 1])
}

/// What is wrong with the last directive of these tokens, which end with its rest.
fn last_directive(alloc: Global, source: &Source<'_>, taken: &[Token]) -> Result<Diag, NoMemory>
    requires { 2 ≤ length taken.now }
    ensures { IfOk result
        (λ diag. ShowsEnd source.now.file.now source.now.bytes.now taken.now diag) }
{
    let (directive, rest) = last_two(taken);
    bad_directive(alloc, source, directive, rest)
}

/// Whether neither a token nor a byte is left.
fn is_end(rest: &[Token], wrong: Option<Point>) -> bool
    ensures { result ≡ is_end rest.now wrong }
{
    rest.is_empty() && wrong.is_none()
}

/// The tokens before the rest.
fn taken<'a>(tokens: &'a [Token], rest: &[Token]) -> &'a [Token]
    ensures { result.now ≡ take (length tokens.now - length rest.now) tokens.now }
{
    let (taken, _) = tokens.split_at(tokens.len().saturating_sub(rest.len()));
    taken
}

/// The description that the tokens of a text are, or what makes the text none.
fn whole(alloc: Global, source: &Source<'_>, scan: &Scan) -> Result<Description, Fault>
    requires { scan.now ≡ scan_of source.now.bytes.now }
    ensures { IsWhole source.now.file.now source.now.bytes.now result }
{
    let tokens = scan.tokens.as_slice();
    let mut cursor = Cursor { rest: tokens };
    match description(alloc, source, &mut cursor) {
        Ok(found) => {
            if is_end(cursor.rest, scan.wrong) {
                return Ok(found);
            }
            let at = stop_place(source.file, scan, cursor.rest)?;
            Err(Fault::Diag(refusal_at(alloc, 2, at)))
        }
        Err(Stop::Refused) => {
            let at = stop_place(source.file, scan, cursor.rest)?;
            Err(Fault::Diag(refusal_at(alloc, 2, at)))
        }
        Err(Stop::BadCondition) => {
            let taken = taken(tokens, cursor.rest);
            Err(Fault::Diag(last_directive(alloc, source, taken)?))
        }
        Err(Stop::NoMemory) => Err(Fault::NoMemory),
    }
}

/// Whether an entry's name passes its limit.
fn is_long(entry: &Entry) -> bool
    ensures { result ≡ nat_lt 255 (length entry.now.name.name) }
{
    entry.name.name.as_bytes().len() > 255
}

/// Whether one of the names passes its limit.
fn any_is_long(entries: &[Entry]) -> bool
    ensures { result ≡ list_any (λ entry. nat_lt 255 (length entry.name.name)) entries.now }
{
    entries.iter().any(|entry| is_long(entry))
}

/// Whether a description passes a limit.
fn passes_limits(description: &Description) -> bool
    ensures { result ≡ passes_limits description.now }
{
    description.members.len() > 4096 || any_is_long(description.entries.as_slice())
}

/// Whether a description is a library without an entry in its export list.
fn lacks_exports(description: &Description) -> bool
    ensures { result ≡ lacks_exports description.now }
{
    description.library && description.entries.is_empty()
}

/// A description, or what it is refused with as one.
fn checked(
    alloc: Global,
    file: &Text,
    tokens: &[Token],
    description: Description,
) -> Result<Description, Fault>
    ensures { Gives result (checked file.now tokens.now description) }
{
    if passes_limits(&description) {
        return Err(Fault::Diag(Diag::on_file(alloc, 12, file)?));
    }
    if lacks_exports(&description) {
        let at = match tokens.first() {
            Some(token) => place_at(file, token.line, token.col)?,
            None => place_at(file, 0, 0)?,
        };
        return Err(Fault::Diag(refusal_at(alloc, 19, at)));
    }
    Ok(description)
}

/// The description that a text is. It is refused with the first of these: 12 for its size; 2, 3 or 12 where it stops
/// being one, whichever stands first in the text; 12 for the number of its members or the length of an exported name;
/// 19 for a library without an exported name.
pub fn read_description(alloc: Global, file: &Text, text: &Text) -> Result<Description, Fault>
    ensures { ReadsDescription file.now text.now result }
{
    if text.as_bytes().len() > 65_536 {
        return Err(Fault::Diag(Diag::on_file(alloc, 12, file)?));
    }
    let scan = scan(alloc, text)?;
    let source = Source {
        file,
        bytes: text.as_bytes(),
    };
    match whole(alloc, &source, &scan) {
        Ok(description) => checked(alloc, file, scan.tokens.as_slice(), description),
        Err(fault) => Err(fault),
    }
}
