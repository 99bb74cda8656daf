//! Printing a report.

ghost use Rattle.std.specs.Prelude.{◌≡◌};
ghost use Rattle.cm_base.specs.Causes.{HasCause};
ghost use Rattle.command_parts.specs.Answers.{Prints};
ghost use Rattle.command_parts.specs.Headline.{IsPlain};

use crate::status::Status;
use cm_base::{Sink, SinkFault};
use std::alloc::Global;

/// Prints a text, and answers the status that is given, or how the output failed.
pub fn print<S: Sink>(alloc: Global, out: &mut S, text: &[u8], plain: Status) -> Status
    requires { IsPlain plain }
    ensures cause { HasCause (S.faults out.old) (S.faults out.new) (result ≡ Status.SinkFault) }
    ensures prints { Prints result plain (S.written out.old) (S.written out.new) text.now }
{
    match out.put(alloc, text) {
        Ok(()) => plain,
        Err(SinkFault::Failed) => Status::SinkFault,
        Err(SinkFault::NoMemory) => Status::NoMemory,
    }
}
