//! What is printed of a build.

ghost use Rattle.std.specs.Prelude.{◌≡◌, ◌≢◌};
ghost use Rattle.cm_base.specs.Causes.{HasCause};
ghost use Rattle.command_parts.specs.Answers.{IsReported, Prints};
ghost use Rattle.cm_top.specs.Performing.{IsSessionEnd};
ghost use Rattle.cm_top.specs.Reports.{text_of};

use cm_base::{Sink, Text};
use command_parts::{Report, Status, print};
use std::alloc::Global;

/// How much of a build's report is printed.
#[derive(Clone, Copy, Debug, PartialEq, Eq)]
pub enum Printed {
    /// All of it.
    Report,
    /// Its last line, as for the builds of a generated project.
    LastLine,
}

/// What is printed of a report.
fn text_of(part: Printed, report: &Report) -> &Text
    ensures { result.now ≡ text_of part report.now }
{
    match part {
        Printed::Report => &report.text,
        Printed::LastLine => &report.last,
    }
}

/// Prints so much of a report.
pub fn print_part<S: Sink>(alloc: Global, out: &mut S, part: Printed, report: &Report) -> Status
    requires { IsReported report.now.status }
    ensures sink { HasCause (S.faults out.old) (S.faults out.new) (result ≡ Status.SinkFault) }
    ensures folder { result ≢ Status.FolderFault }
    ensures tool { result ≢ Status.ToolFault }
    ensures end { IsSessionEnd result }
    ensures prints { Prints result report.now.status (S.written out.old) (S.written out.new)
        (text_of part report.now) }
{
    print(alloc, out, text_of(part, report).as_bytes(), report.status)
}
