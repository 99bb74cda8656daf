//! The limit of reading that no other crate needs.

/// The greatest description, in bytes.
pub const DESCRIPTION: u64 = 65_536;
