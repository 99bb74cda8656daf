//! Reads the export list.

ghost use Rattle.std.specs.Prelude.{◌≡◌};
ghost use Rattle.cm_description.specs.Grammar.{entry, export_step, exports, no_exports};
ghost use Rattle.cm_description.specs.Words.{space_at};
ghost use Rattle.cm_description.specs.Seen.{Reads};

use crate::cursor::Cursor;
use crate::description::Entry;
use crate::found::Exports;
use crate::lines::{line, word};
use crate::source::Source;
use crate::stop::Stop;
use crate::word::WordKind;
use cm_base::{ModName, Namespace, Text};
use cm_lexer::Token;
use std::alloc::Global;

/// An entry, behind its name space.
#[tactic(auto, unfolding(crate::specs::Grammar::entry))]
fn entry(
    alloc: Global,
    source: &Source<'_>,
    cursor: &mut Cursor<'_>,
    token: Token,
    space: Namespace,
) -> Result<Entry, Stop>
    ensures { Reads (entry source.now.file.now source.now.bytes.now token space)
        cursor.old.rest.now result cursor.new.rest.now }
{
    let name = word(source, cursor, WordKind::Identifier)?;
    Ok(Entry {
        at: source.place(token)?,
        name: ModName {
            space,
            name: Text::from_bytes(alloc, source.slice(name))?,
        },
    })
}

/// An entry or a directive, behind its first token.
#[tactic(auto, unfolding(crate::specs::Grammar::export_step))]
fn export_step(
    alloc: Global,
    source: &Source<'_>,
    cursor: &mut Cursor<'_>,
    found: Exports,
    token: Token,
) -> Result<Exports, Stop>
    ensures { Reads (export_step source.now.file.now source.now.bytes.now found token
        (space_at source.now.bytes.now token)) cursor.old.rest.now result cursor.new.rest.now }
{
    match source.space_at(token) {
        Some(space) => {
            let entry = entry(alloc, source, cursor, token, space)?;
            Ok(found.with_entry(entry)?)
        }
        None => {
            let line = line(alloc, source, cursor, token, true)?;
            Ok(found.with_line(line)?)
        }
    }
}

/// The export list.
#[tactic(auto, using(crate::proofs::Steps::export_steps))]
pub(crate) fn exports(
    alloc: Global,
    source: &Source<'_>,
    cursor: &mut Cursor<'_>,
) -> Result<Exports, Stop>
    ensures { Reads (exports source.now.file.now source.now.bytes.now no_exports)
        cursor.old.rest.now result cursor.new.rest.now }
{
    let mut found = Exports::new(alloc);
    while let Some(token) = cursor.export(source) {
        cursor.take();
        found = export_step(alloc, source, cursor, found, token)?;
    }
    Ok(found)
}
