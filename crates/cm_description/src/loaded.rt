//! A project that was loaded from whole descriptions: its groups, and the units in them.

use crate::description::Entry;
use cm_base::{Import, List, ModName, Options, Pid, Text};
use cm_conditions::Line;

/// A unit: one source member, named by its file's name, in the group of this number.
#[derive(Debug, Drop)]
pub struct Unit {
    pub name: Text,
    pub group: u32,
    pub body: UnitBody,
}

/// What is known of a unit: its source, or what its library's frozen file records.
#[derive(Debug, Drop)]
pub enum UnitBody {
    Source {
        options: Options,
        source: Text,
    },
    Frozen {
        imports: List<Import>,
        interface: Text,
        code: Text,
    },
}

/// A name that a group exports, and the number of the unit that defines it. A frozen library records the hash of that
/// unit's interface.
#[derive(Debug, Drop)]
pub struct Export {
    pub name: ModName,
    pub unit: u32,
    pub hash: Option<Pid>,
}

/// A group or a library. Its owner is the number of the nearest library above it, or of the first group. `members` are
/// the numbers of the groups among its members, and `thawed` is there where it was read from a frozen file.
#[derive(Debug, Drop)]
pub struct Group {
    pub file: Text,
    pub library: bool,
    pub owner: u32,
    pub entries: List<Entry>,
    pub export_lines: List<Line>,
    pub thawed: Option<List<Export>>,
    pub units: List<u32>,
    pub members: List<u32>,
}

/// The units and the groups in the order in which their loading began, and the numbers of the groups in the order in
/// which it ended.
#[derive(Debug, Drop)]
pub struct Project {
    pub units: List<Unit>,
    pub groups: List<Group>,
    pub finished: List<u32>,
}

/// A name that a unit imports, and the number of the unit that provides it.
#[derive(Debug, Drop)]
pub struct Wanted {
    pub name: ModName,
    pub provider: u32,
}
