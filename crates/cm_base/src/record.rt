//! The records that the manager and a compiler hand each other.

use crate::list::List;
use crate::text::Text;

/// The four name spaces of modules, in the order in which names are sorted.
#[derive(Clone, Copy, Debug, PartialEq, Eq, PartialOrd, Ord, Hash)]
pub enum Namespace {
    Structure,
    Signature,
    Functor,
    Funsig,
}

/// The name of a module: its name space, and its identifier.
#[derive(Clone, Debug, Drop, PartialEq, Eq, PartialOrd, Ord, Hash)]
pub struct ModName {
    pub space: Namespace,
    pub name: Text,
}

/// The hash of an interface: its SHA-256.
#[derive(Clone, Copy, Debug, PartialEq, Eq)]
pub struct Pid {
    pub bytes: [u8; 32],
}

/// The options of a source: `nobasis` hides the built-in structures, `opaque` seals the top-level ones.
#[derive(Clone, Copy, Debug, PartialEq, Eq)]
pub struct Options {
    pub nobasis: bool,
    pub opaque: bool,
}

/// A module name with its place in a source.
#[derive(Clone, Debug, Drop, PartialEq, Eq)]
pub struct Spot {
    pub name: ModName,
    pub line: u32,
    pub col: u32,
}

/// A module name that a source uses. It is sure where it can't come from an `open` or an `include`.
#[derive(Clone, Debug, Drop, PartialEq, Eq)]
pub struct Need {
    pub spot: Spot,
    pub sure: bool,
}

/// What the manager knows of a source before it is compiled: its top-level module names and its free ones.
#[derive(Clone, Debug, Drop)]
pub struct Skeleton {
    pub defined: List<Spot>,
    pub free: List<Need>,
}

/// A module name that a unit uses, and the unit that provides it.
#[derive(Clone, Debug, Drop)]
pub struct WantedName {
    pub name: ModName,
    pub provider: Text,
}

/// A source unit that is to be built, after the units that provide its names.
#[derive(Debug, Drop)]
pub struct PlannedUnit {
    pub unit: Text,
    pub options: Options,
    pub source: Text,
    pub skeleton: Skeleton,
    pub wanted: List<WantedName>,
}

/// An imported module name, the unit that provides it, and the hash of that unit's interface.
#[derive(Clone, Debug, Drop, PartialEq, Eq)]
pub struct Import {
    pub name: ModName,
    pub provider: Text,
    pub hash: Pid,
}

/// An import with the bytes of its provider's interface.
#[derive(Clone, Debug, Drop)]
pub struct Given {
    pub import: Import,
    pub interface: Text,
}

/// All that a compiler sees of a unit.
#[derive(Clone, Debug, Drop)]
pub struct CompileInput {
    pub unit: Text,
    pub options: Options,
    pub source: Text,
    pub imports: List<Given>,
}

/// What a compiler makes of a unit: the bytes of its interface and of its code.
#[derive(Clone, Debug, Drop)]
pub struct Compiled {
    pub interface: Text,
    pub code: Text,
}

/// How a unit came into a build.
#[derive(Clone, Copy, Debug, PartialEq, Eq)]
pub enum How {
    Compiled,
    Loaded,
    Frozen,
}

/// A unit that a build has done.
#[derive(Clone, Debug, Drop)]
pub struct BuiltUnit {
    pub unit: Text,
    pub how: How,
    pub imports: List<Import>,
    pub hash: Pid,
    pub interface: Text,
    pub code: Text,
}

/// The units that a build has done, in their order.
#[derive(Clone, Debug, Drop)]
pub struct Built {
    pub units: List<BuiltUnit>,
}

/// A definition of `-D`: a name of conditions, and its value.
#[derive(Clone, Debug, Drop, PartialEq, Eq)]
pub struct Def {
    pub name: Text,
    pub value: i64,
}
