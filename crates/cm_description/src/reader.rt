//! Reads a description from its tokens.

ghost use Rattle.cm_description.specs.Grammar.{description};
ghost use Rattle.cm_description.specs.Seen.{Reads};

use crate::cursor::Cursor;
use crate::description::Description;
use crate::export_list::exports;
use crate::found::described;
use crate::lines::word;
use crate::member_list::members;
use crate::source::Source;
use crate::stop::Stop;
use crate::word::{WordKind, is_library_word};
use std::alloc::Global;

/// A description, as far as the tokens go on with one.
#[tactic(auto, unfolding(crate::specs::Grammar::description))]
pub(crate) fn description(
    alloc: Global,
    source: &Source<'_>,
    cursor: &mut Cursor<'_>,
) -> Result<Description, Stop>
    ensures { Reads (description source.now.file.now source.now.bytes.now)
        cursor.old.rest.now result cursor.new.rest.now }
{
    let kind = word(source, cursor, WordKind::Kind)?;
    let library = is_library_word(source.slice(kind));
    let exported = exports(alloc, source, cursor)?;
    word(source, cursor, WordKind::Is)?;
    let found = members(alloc, source, cursor)?;
    Ok(described(library, exported, found))
}
