//! What was read of a description so far.

ghost use Rattle.std.specs.Prelude.{◌≡◌, IfOk, length};
ghost use Rattle.cm_description.specs.Grammar.{item, no_exports, with_entry, with_export_line, no_members, with_member, with_member_line, unclassed, described};

use crate::description::{Description, Entry, MemberEntry};
use cm_base::{List, NoMemory, Place, Text};
use cm_conditions::{Line, LineBody};
use std::alloc::Global;

/// What was read of an export list.
#[derive(Debug, Drop)]
pub struct Exports {
    pub entries: List<Entry>,
    pub lines: List<Line>,
}

/// What was read of a member list.
#[derive(Debug, Drop)]
pub struct Members {
    pub members: List<MemberEntry>,
    pub lines: List<Line>,
}

/// What stands behind a member's path.
#[derive(Debug, Drop)]
pub struct Classed {
    pub class: Option<Text>,
    pub options: List<Text>,
}

/// The line of an item. Want of memory is the answer only where its number passes four bytes.
fn item(at: &Place, number: usize) -> Result<Line, NoMemory>
    ensures { IfOk result (λ line. line ≡ item at.now number) }
{
    let number = u32::try_from(number).map_err(|_| NoMemory)?;
    Ok(Line {
        at: Place {
            file: at.file.copy()?,
            line: at.line,
            col: at.col,
        },
        body: LineBody::Item(number),
    })
}

impl Exports {
    /// Nothing.
    pub(crate) fn new(alloc: Global) -> Exports
        ensures { result ≡ no_exports }
    {
        Exports {
            entries: List::new(alloc),
            lines: List::new(alloc),
        }
    }

    /// With one more directive.
    pub(crate) fn with_line(self, line: Line) -> Result<Exports, NoMemory>
        ensures { IfOk result (λ found. found ≡ with_export_line self line) }
    {
        let Exports { entries, mut lines } = self;
        lines.add(line)?;
        Ok(Exports { entries, lines })
    }

    /// With one more entry.
    pub(crate) fn with_entry(self, entry: Entry) -> Result<Exports, NoMemory>
        ensures { IfOk result (λ found. found ≡ with_entry self entry) }
    {
        let Exports {
            mut entries,
            mut lines,
        } = self;
        lines.add(item(&entry.at, entries.len())?)?;
        entries.add(entry)?;
        Ok(Exports { entries, lines })
    }
}

impl Members {
    /// Nothing.
    pub(crate) fn new(alloc: Global) -> Members
        ensures { result ≡ no_members }
    {
        Members {
            members: List::new(alloc),
            lines: List::new(alloc),
        }
    }

    /// With one more directive.
    pub(crate) fn with_line(self, line: Line) -> Result<Members, NoMemory>
        ensures { IfOk result (λ found. found ≡ with_member_line self line) }
    {
        let Members { members, mut lines } = self;
        lines.add(line)?;
        Ok(Members { members, lines })
    }

    /// With one more member.
    pub(crate) fn with_member(self, member: MemberEntry) -> Result<Members, NoMemory>
        ensures { IfOk result (λ found. found ≡ with_member self member) }
    {
        let Members {
            mut members,
            mut lines,
        } = self;
        lines.add(item(&member.at, members.len())?)?;
        members.add(member)?;
        Ok(Members { members, lines })
    }
}

impl Classed {
    /// No class, and no options.
    pub(crate) fn none(alloc: Global) -> Classed
        ensures { result ≡ unclassed }
    {
        Classed {
            class: None,
            options: List::new(alloc),
        }
    }
}

/// A description of both lists.
pub(crate) fn described(library: bool, exported: Exports, found: Members) -> Description
    ensures { result ≡ described library exported found }
{
    let Exports { entries, lines } = exported;
    Description {
        library,
        entries,
        export_lines: lines,
        members: found.members,
        member_lines: found.lines,
    }
}
