//! A sink of bytes: where the program prints.

ghost use Rattle.std.specs.Prelude.{◌≡◌, ℕ, Option, List, Err};
ghost use Rattle.cm_base.specs.Causes.{HasCause};
ghost use Rattle.cm_base.specs.Calls.{PutLeaves};

use crate::fault::SinkFault;
use std::alloc::Global;

/// What was written may be told or not, which never changes; `faults` counts failures, and never falls.
pub trait Sink {
    ghost written: { Self → Option (List ℕ) };

    ghost faults: { Self → ℕ };

    /// Appends the bytes. A failed put appends a front of them.
    fn put(&mut self, alloc: Global, bytes: &[u8]) -> Result<(), SinkFault>
        ensures cause { HasCause (faults self.old) (faults self.new) (result ≡ Err SinkFault.Failed) }
        ensures leaves { PutLeaves result (written self.old) (written self.new) bytes.now };
}
