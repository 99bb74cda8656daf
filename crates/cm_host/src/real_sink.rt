//! A sink over standard output.

ghost use Rattle.std.specs.Prelude.{◌≡◌};

use cm_base::{NoMemory, Sink, SinkFault};
use std::alloc::Global;
use std::io;
use std::io::{Print, Write};

/// Standard output. It tells nothing of what was written, and counts its failures.
#[derive(Drop)]
pub struct RealSink<R> {
    rt: R,
    faults: u64,
}

/// Writes all bytes through.
fn print_all<R: Print>(rt: &R, bytes: &[u8]) -> io::Result<()> {
    let mut out = io::writer(rt);
    out.write_all(bytes)?;
    out.flush()
}

impl<R: Print + AllocGlobal> RealSink<R> {
    /// The sink over this runtime's standard output. It takes no memory.
    pub fn new(rt: R) -> Result<RealSink<R>, NoMemory> {
        Ok(RealSink { rt, faults: 0 })
    }
}

impl<R: Print + AllocGlobal> Sink for RealSink<R> {
    ghost use Rattle.std.specs.Prelude.{None};

    ghost written = { λ s. None };

    ghost faults = { λ s. s.faults };

    fn put(&mut self, _alloc: Global, bytes: &[u8]) -> Result<(), SinkFault> {
        match print_all(&self.rt, bytes) {
            Ok(()) => Ok(()),
            Err(_) => {
                self.faults = self.faults.saturating_add(1);
                Err(SinkFault::Failed)
            }
        }
    }
}
