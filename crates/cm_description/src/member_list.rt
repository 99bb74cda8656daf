//! Reads the member list.

ghost use Rattle.std.specs.Prelude.{◌≡◌};
ghost use Rattle.cm_description.specs.Grammar.{options, some_options, maybe_options, class, maybe_class, member, member_step, members, no_members};
ghost use Rattle.cm_description.specs.Words.{is_path};
ghost use Rattle.cm_description.specs.Seen.{Reads};

use crate::cursor::Cursor;
use crate::description::MemberEntry;
use crate::found::{Classed, Members};
use crate::lines::{line, mark, word};
use crate::source::{Source, is_path};
use crate::stop::Stop;
use crate::word::WordKind;
use cm_base::{List, Text};
use cm_lexer::{Token, TokenKind};
use std::alloc::Global;

/// Further options, behind those that were read.
#[tactic(auto, using(crate::proofs::Steps::option_steps))]
fn options(
    alloc: Global,
    source: &Source<'_>,
    cursor: &mut Cursor<'_>,
    first: List<Text>,
) -> Result<List<Text>, Stop>
    ensures { Reads (options source.now.bytes.now first) cursor.old.rest.now result cursor.new.rest.now }
{
    let mut found = first;
    while let Some(token) = cursor.word(source, WordKind::Letters) {
        cursor.take();
        found.add(Text::from_bytes(alloc, source.slice(token))?)?;
    }
    Ok(found)
}

/// Options, behind the opening parenthesis.
#[tactic(auto, unfolding(crate::specs::Grammar::some_options))]
fn some_options(
    alloc: Global,
    source: &Source<'_>,
    cursor: &mut Cursor<'_>,
) -> Result<List<Text>, Stop>
    ensures { Reads (some_options source.now.bytes.now) cursor.old.rest.now result cursor.new.rest.now }
{
    let token = word(source, cursor, WordKind::Letters)?;
    let mut first = List::new(alloc);
    first.add(Text::from_bytes(alloc, source.slice(token))?)?;
    let found = options(alloc, source, cursor, first)?;
    mark(cursor, TokenKind::Close)?;
    Ok(found)
}

/// The options of a class, if there are any.
#[tactic(auto, using(crate::proofs::Steps::maybe_options_steps))]
fn maybe_options(
    alloc: Global,
    source: &Source<'_>,
    cursor: &mut Cursor<'_>,
) -> Result<List<Text>, Stop>
    ensures { Reads (maybe_options source.now.bytes.now) cursor.old.rest.now result cursor.new.rest.now }
{
    if cursor.mark(TokenKind::Open).is_none() {
        return Ok(List::new(alloc));
    }
    cursor.take();
    some_options(alloc, source, cursor)
}

/// A class and its options, behind the colon.
#[tactic(auto, unfolding(crate::specs::Grammar::class))]
fn class(alloc: Global, source: &Source<'_>, cursor: &mut Cursor<'_>) -> Result<Classed, Stop>
    ensures { Reads (class source.now.bytes.now) cursor.old.rest.now result cursor.new.rest.now }
{
    let name = word(source, cursor, WordKind::Letters)?;
    let options = maybe_options(alloc, source, cursor)?;
    let class = Text::from_bytes(alloc, source.slice(name))?;
    Ok(Classed {
        class: Some(class),
        options,
    })
}

/// The class of a member, if one is written.
#[tactic(auto, using(crate::proofs::Steps::maybe_class_steps))]
fn maybe_class(alloc: Global, source: &Source<'_>, cursor: &mut Cursor<'_>) -> Result<Classed, Stop>
    ensures { Reads (maybe_class source.now.bytes.now) cursor.old.rest.now result cursor.new.rest.now }
{
    if cursor.mark(TokenKind::Colon).is_none() {
        return Ok(Classed::none(alloc));
    }
    cursor.take();
    class(alloc, source, cursor)
}

/// A member, behind its path.
#[tactic(auto, unfolding(crate::specs::Grammar::member))]
fn member(
    alloc: Global,
    source: &Source<'_>,
    cursor: &mut Cursor<'_>,
    token: Token,
) -> Result<MemberEntry, Stop>
    ensures { Reads (member source.now.file.now source.now.bytes.now token)
        cursor.old.rest.now result cursor.new.rest.now }
{
    let Classed { class, options } = maybe_class(alloc, source, cursor)?;
    Ok(MemberEntry {
        at: source.place(token)?,
        path: Text::from_bytes(alloc, source.path(token))?,
        class,
        options,
    })
}

/// A member or a directive, behind its first token.
#[tactic(auto, unfolding(crate::specs::Grammar::member_step))]
fn member_step(
    alloc: Global,
    source: &Source<'_>,
    cursor: &mut Cursor<'_>,
    found: Members,
    token: Token,
) -> Result<Members, Stop>
    ensures { Reads (member_step source.now.file.now source.now.bytes.now found token (is_path token))
        cursor.old.rest.now result cursor.new.rest.now }
{
    if is_path(token) {
        let member = member(alloc, source, cursor, token)?;
        return Ok(found.with_member(member)?);
    }
    let line = line(alloc, source, cursor, token, false)?;
    Ok(found.with_line(line)?)
}

/// The member list.
#[tactic(auto, using(crate::proofs::Steps::member_steps))]
pub(crate) fn members(
    alloc: Global,
    source: &Source<'_>,
    cursor: &mut Cursor<'_>,
) -> Result<Members, Stop>
    ensures { Reads (members source.now.file.now source.now.bytes.now no_members)
        cursor.old.rest.now result cursor.new.rest.now }
{
    let mut found = Members::new(alloc);
    while let Some(token) = cursor.member() {
        cursor.take();
        found = member_step(alloc, source, cursor, found, token)?;
    }
    Ok(found)
}
