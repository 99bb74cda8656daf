//! A description, as its text says it.

use cm_base::{List, ModName, Place, Text};
use cm_conditions::Line;

/// What a description's text says. The lines of a list are its directives and its items in the order of the text; an
/// `Item` numbers the entries, or the members, from 0 on.
#[derive(Debug, Drop)]
pub struct Description {
    /// Whether it is a library, and else a group.
    pub library: bool,
    pub entries: List<Entry>,
    pub export_lines: List<Line>,
    pub members: List<MemberEntry>,
    pub member_lines: List<Line>,
}

/// A name of an export list, at its name space.
#[derive(Debug, Drop)]
pub struct Entry {
    pub at: Place,
    pub name: ModName,
}

/// A member, at its path. The path is as it is written, without quotes.
#[derive(Debug, Drop)]
pub struct MemberEntry {
    pub at: Place,
    pub path: Text,
    /// The class that is written behind the path, if one is.
    pub class: Option<Text>,
    pub options: List<Text>,
}
