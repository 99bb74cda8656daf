//! A sink in memory whose puts fail where a plan says so.

ghost use Rattle.std.specs.Prelude.{◌≡◌, ◌≤◌, ◌==◌, Some, Err, [], IsTrue};
ghost use Rattle.std.specs.List.{list_any};
ghost use Rattle.cm_base.specs.Causes.{HasCause, Rose, one_more};
ghost use Rattle.cm_base.specs.Calls.{PutLeaves};
ghost use Rattle.cm_base.specs.Plans.{PutAsPlanned, first_half};

use crate::fault::SinkFault;
use crate::list::List;
use crate::sink::Sink;
use crate::sure_sink::append;
use std::alloc::Global;

/// A sink in memory. Its puts fail exactly where its plan lists their numbers, counted from 1.
#[derive(Drop)]
pub struct MemSink {
    pub written: Vec<u8>,
    pub plan: List<u32>,
    pub puts: u64,
    pub faults: u64,
}

/// Whether the plan lists this number.
fn is_listed(plan: &List<u32>, nth: u64) -> bool
    ensures { result ≡ list_any (λ n. n == nth) plan.now }
{
    plan.as_slice().iter().any(|n| u64::from(*n) == nth)
}

/// The first half of a piece, rounded down.
fn half(bytes: &[u8]) -> &[u8]
    ensures { result.now ≡ first_half bytes.now }
{
    &bytes[..bytes.len() / 2]
}

impl MemSink {
    /// An empty sink with an empty plan. It takes no memory.
    pub fn new(alloc: Global) -> MemSink
        ensures written { result.written.items ≡ [] }
        ensures plan { result.plan ≡ [] }
        ensures puts { result.puts ≡ 0 }
        ensures faults { result.faults ≡ 0 }
    {
        MemSink {
            written: Vec::new(alloc),
            plan: List::new(alloc),
            puts: 0,
            faults: 0,
        }
    }

    /// Replaces the plan, and sets the call numbers back to none. It takes no memory.
    pub fn fail(&mut self, nth: List<u32>)
        ensures { self.new ≡ record self.old { plan = nth; puts = 0 } }
    {
        self.plan = nth;
        self.puts = 0;
    }

    /// All bytes that were appended. It takes no memory.
    pub fn bytes(&self) -> &[u8]
        ensures { result.now ≡ self.now.written.items }
    {
        self.written.as_slice()
    }
}

impl Sink for MemSink {
    ghost written = { λ s. Some s.written.items };

    ghost faults = { λ s. s.faults };

    fn put(&mut self, _alloc: Global, bytes: &[u8]) -> Result<(), SinkFault>
        ensures planned { PutAsPlanned self.old.plan (one_more self.old.puts) result
            self.old.written.items self.new.written.items bytes.now }
        ensures cause { HasCause self.old.faults self.new.faults (result ≡ Err SinkFault.Failed) }
        ensures same { self.new.plan ≡ self.old.plan }
        ensures counted { self.new.puts ≡ one_more self.old.puts }
    {
        self.puts = self.puts.saturating_add(1);
        if !is_listed(&self.plan, self.puts) {
            return Ok(append(&mut self.written, bytes)?);
        }
        append(&mut self.written, half(bytes))?;
        self.faults = self.faults.saturating_add(1);
        Err(SinkFault::Failed)
    }
}
