//! What a call answers where it can't do its work: want of memory, a diagnostic, or a failing object.

use crate::diag::Diag;
use std::alloc::{AllocError, AllocFailed};
use thiserror::Error;

/// Want of memory, the one answer that any call that allocates may give.
#[derive(Clone, Copy, Debug, PartialEq, Eq, Error)]
#[error("out of memory")]
pub struct NoMemory;

impl From<AllocError> for NoMemory {
    fn from(_error: AllocError) -> Self {
        NoMemory
    }
}

impl<T: Drop> From<AllocFailed<T>> for NoMemory {
    fn from(_error: AllocFailed<T>) -> Self {
        NoMemory
    }
}

/// The answer of a call that refuses its input with a diagnostic.
#[derive(Debug, Drop)]
pub enum Fault {
    Diag(Diag),
    NoMemory,
}

impl From<NoMemory> for Fault {
    ghost use Rattle.std.specs.Prelude.{◌≡◌};
    ghost use Rattle.cm_base.specs.declared.fault.Fault.TheVariants.{NoMemory as memory};

    ghost from_gives = { λ _ fault. fault ≡ memory };

    fn from(_error: NoMemory) -> Self {
        Fault::NoMemory
    }
}

/// Why a call of a folder didn't do its work.
#[derive(Clone, Copy, Debug, PartialEq, Eq, Error)]
pub enum FolderFault {
    #[error("the folder failed")]
    Failed,
    #[error("out of memory")]
    NoMemory,
}

impl From<NoMemory> for FolderFault {
    ghost use Rattle.std.specs.Prelude.{◌≡◌};
    ghost use Rattle.cm_base.specs.declared.fault.FolderFault.TheVariants.{NoMemory as memory};

    ghost from_gives = { λ _ fault. fault ≡ memory };

    fn from(_error: NoMemory) -> Self {
        FolderFault::NoMemory
    }
}

/// Why a call of a sink didn't do its work.
#[derive(Clone, Copy, Debug, PartialEq, Eq, Error)]
pub enum SinkFault {
    #[error("the output failed")]
    Failed,
    #[error("out of memory")]
    NoMemory,
}

impl From<NoMemory> for SinkFault {
    ghost use Rattle.std.specs.Prelude.{◌≡◌};
    ghost use Rattle.cm_base.specs.declared.fault.SinkFault.TheVariants.{NoMemory as memory};

    ghost from_gives = { λ _ fault. fault ≡ memory };

    fn from(_error: NoMemory) -> Self {
        SinkFault::NoMemory
    }
}

/// Why a tool didn't make its text.
#[derive(Clone, Copy, Debug, PartialEq, Eq, Error)]
pub enum ToolFault {
    #[error("the tool failed")]
    Failed,
    #[error("out of memory")]
    NoMemory,
}

impl From<NoMemory> for ToolFault {
    ghost use Rattle.std.specs.Prelude.{◌≡◌};
    ghost use Rattle.cm_base.specs.declared.fault.ToolFault.TheVariants.{NoMemory as memory};

    ghost from_gives = { λ _ fault. fault ≡ memory };

    fn from(_error: NoMemory) -> Self {
        ToolFault::NoMemory
    }
}

/// Why a compiler gave no skeleton, or no interface and code.
#[derive(Debug, Drop)]
pub enum CompileFault {
    Diag(Diag),
    NoMemory,
}

impl From<NoMemory> for CompileFault {
    ghost use Rattle.std.specs.Prelude.{◌≡◌};
    ghost use Rattle.cm_base.specs.declared.fault.CompileFault.TheVariants.{NoMemory as memory};

    ghost from_gives = { λ _ fault. fault ≡ memory };

    fn from(_error: NoMemory) -> Self {
        CompileFault::NoMemory
    }
}
