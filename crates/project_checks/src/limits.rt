//! The limits of loading. A limit is passed exactly where the number is greater.

/// The greatest `pathconfig`, in bytes.
pub const PATHCONFIG: u64 = 65_536;

/// The most groups of a project, libraries among them.
pub const GROUPS: u64 = 512;

/// The most levels of groups in groups: one more than there are groups, so that the refusal of a group too many comes
/// first.
pub const LEVELS: u32 = 513;

/// The most units of a project.
pub const UNITS: u64 = 4_096;

/// The greatest source, in bytes.
pub const SOURCE: u64 = 1_048_576;

/// The greatest sum of all sources of a project, in bytes.
pub const ALL_SOURCES: u64 = 67_108_864;
