//! Too few bytes.

use thiserror::Error;

/// Fewer bytes are left than the field has.
#[derive(Clone, Copy, Debug, PartialEq, Eq, Error)]
#[error("too few bytes")]
pub struct Short;
