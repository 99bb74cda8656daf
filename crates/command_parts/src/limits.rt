//! The limit of linking, in bytes. A limit is passed exactly where the number is greater.

/// The greatest linked program.
pub const LINKED: u64 = 268_435_456;
