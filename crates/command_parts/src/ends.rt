//! How commands and edits end, and the lines that say so.

ghost use Rattle.std.specs.Prelude.{◌≡◌, ◌≢◌};
ghost use Rattle.cm_base.specs.Causes.{HasCause};
ghost use Rattle.cm_base.specs.Files.{Told};
ghost use Rattle.command_parts.specs.Answers.{Prints};
ghost use Rattle.command_parts.specs.Headline.{Ends, IsUsageEnd, run_of};
ghost use Rattle.command_parts.specs.Lines.{status_line};
ghost use Rattle.command_parts.specs.Meaning.{usage};
ghost use Rattle.command_parts.specs.Performing.{IsSessionEnd, Performs, edit_end, is_plain, state_of};
ghost use Rattle.command_parts.specs.Sessions.{refused};

use crate::lines::{diag_text, usage_text};
use crate::printing::print;
use crate::status::Status;
use cm_base::{Compiler, Diag, Folder, FolderFault, NoMemory, Sink};
use std::alloc::Global;

/// Whether a command that ended so met no fault.
pub fn is_plain(status: Status) -> bool
    ensures { result ≡ is_plain status }
{
    match status {
        Status::Ok | Status::Diagnostic | Status::Usage => true,
        Status::FolderFault | Status::SinkFault | Status::NoMemory | Status::ToolFault => false,
    }
}

/// The line behind a command that ended so; none after a fault.
fn status_line(status: Status) -> &'static [u8]
    ensures { result.now ≡ status_line status }
{
    match status {
        Status::Ok => b"[status 0]\n",
        Status::Diagnostic => b"[status 1]\n",
        Status::Usage => b"[status 2]\n",
        Status::FolderFault | Status::SinkFault | Status::NoMemory | Status::ToolFault => b"",
    }
}

/// Prints the line behind a command that ended so.
pub fn print_status<S: Sink>(alloc: Global, out: &mut S, status: Status) -> Status
    ensures sink { HasCause (S.faults out.old) (S.faults out.new) (result ≡ Status.SinkFault) }
    ensures prints { Prints result Status.Ok (S.written out.old) (S.written out.new) (status_line status) }
{
    print(alloc, out, status_line(status), Status::Ok)
}

/// How an edit ends, by the folder's answer.
pub fn edit_end(answer: Result<(), FolderFault>) -> Status
    ensures { result ≡ edit_end answer }
{
    match answer {
        Ok(()) => Status::Ok,
        Err(FolderFault::Failed) => Status::FolderFault,
        Err(FolderFault::NoMemory) => Status::NoMemory,
    }
}

/// Prints the line for words that mean nothing.
pub fn run_usage<F: Folder, S: Sink, C: Compiler>(
    alloc: Global,
    folder: &F,
    out: &mut S,
    compiler: &C,
) -> Status
    ensures sink { HasCause (S.faults out.old) (S.faults out.new) (result ≡ Status.SinkFault) }
    ensures folder { result ≢ Status.FolderFault }
    ensures tool { result ≢ Status.ToolFault }
    ensures ends { Told (F.holds folder.now) (λ files. Told (S.written out.old) (λ text. Ends result (usage files)
        (run_of text (S.written out.new) (F.holds folder.now) (C.asked compiler.now) (C.asked compiler.now)
        (C.asked_skeletons compiler.now) (C.asked_skeletons compiler.now)))) }
    ensures nothing { IsUsageEnd result }
{
    match usage_text(alloc) {
        Ok(text) => print(alloc, out, text.as_slice(), Status::Usage),
        Err(NoMemory) => Status::NoMemory,
    }
}

/// Prints the line of a refusal.
pub fn print_refusal<F: Folder, S: Sink, C: Compiler>(
    alloc: Global,
    diag: &Diag,
    folder: &F,
    out: &mut S,
    compiler: &C,
) -> Status
    ensures sink { HasCause (S.faults out.old) (S.faults out.new) (result ≡ Status.SinkFault) }
    ensures folder { result ≡ Status.FolderFault → ⊥ }
    ensures end { IsSessionEnd result }
    ensures performs { Performs C.defines (λ files. refused files diag.now) (λ files. refused files diag.now) result
        (state_of (S.written out.old) (F.holds folder.now) (C.asked compiler.now) (C.asked_skeletons compiler.now))
        (state_of (S.written out.new) (F.holds folder.now) (C.asked compiler.now) (C.asked_skeletons compiler.now)) }
{
    match diag_text(alloc, diag) {
        Ok(text) => print(alloc, out, text.as_slice(), Status::Diagnostic),
        Err(NoMemory) => Status::NoMemory,
    }
}
