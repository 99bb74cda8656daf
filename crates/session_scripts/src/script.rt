//! Reads a script.

ghost use Rattle.std.specs.Prelude.{◌≡◌, ◌<◌, ◌≤◌, ◌+◌, ◌^◌, ◌++◌, [], IfOk, IfErr, OnOk, length};
ghost use Rattle.cm_base.specs.Calls.{Gives};
ghost use Rattle.path_anchors.specs.Pathconfig.{lines_of};
ghost use Rattle.session_scripts.specs.declared.line.Line.TheVariants.{File};
ghost use Rattle.session_scripts.specs.Parts.{IsPart, IsPartOf, IsRefusal};
ghost use Rattle.session_scripts.specs.Scripts.{with_step, steps_from, script_of};

use crate::content::{Content, read_content};
use crate::line::{Line, read_line};
use crate::step::Step;
use crate::text::{front_line, later_text};
use cm_base::{Diag, Fault, List, NoMemory, Text};
use std::alloc::Global;

const SCRIPT_LIMIT: usize = 1_048_576;

/// A line with the lines of content behind it: the step that it gives, if any, the number of these lines, and what
/// follows them.
#[derive(Drop)]
pub struct Part<'a> {
    pub step: Option<Step>,
    pub lines: u32,
    pub rest: &'a [u8],
}

/// The part that a file makes with the content behind its line.
fn file_part(alloc: Global, path: Text, later: &[u8]) -> Result<Part<'_>, NoMemory>
    requires { length later.now + 1 < 2 ^ 32 }
    ensures { IfOk result (λ part. IsPartOf (File path) later.now part.step part.lines part.rest.now) }
{
    let Content { bytes, lines, rest } = read_content(alloc, later)?;
    Ok(Part {
        step: Some(Step::Write {
            path,
            content: bytes,
        }),
        lines: lines + 1,
        rest,
    })
}

/// The part that a line makes behind which no content is read.
fn line_part(step: Option<Step>, later: &[u8]) -> Part<'_>
    ensures step { result.step ≡ step }
    ensures lines { result.lines ≡ 1 }
    ensures rest { result.rest.now ≡ later.now }
{
    Part {
        step,
        lines: 1,
        rest: later,
    }
}

/// The part that a line makes with what stands behind it.
fn part_of(alloc: Global, line: Line, later: &[u8]) -> Result<Part<'_>, NoMemory>
    requires { length later.now + 1 < 2 ^ 32 }
    ensures { IfOk result (λ part. IsPartOf line later.now part.step part.lines part.rest.now) }
{
    match line {
        Line::File(path) => file_part(alloc, path, later),
        Line::Remove(path) => Ok(line_part(Some(Step::Remove { path }), later)),
        Line::Command(words) => Ok(line_part(Some(Step::Command { words }), later)),
        Line::Nothing => Ok(line_part(None, later)),
    }
}

/// Reads the part at the front of a text, whose first line has this number in the script.
fn read_part<'a>(alloc: Global, file: &Text, number: u32, text: &'a [u8]) -> Result<Part<'a>, Fault>
    requires some { 0 < length text.now }
    requires room { number + length text.now < 2 ^ 32 }
    ensures part { IfOk result (λ part. IsPart file.now number text.now part.step part.lines part.rest.now) }
    ensures refusal { IfErr result (λ fault. IsRefusal fault (steps_from file.now number (lines_of text.now))) }
{
    let line = read_line(alloc, file, number, front_line(text))?;
    Ok(part_of(alloc, line, later_text(text))?)
}

/// Adds a step at the end, if there is one.
fn add(steps: &mut List<Step>, step: Option<Step>) -> Result<(), NoMemory>
    ensures { OnOk result (steps.new ≡ steps.old ++ with_step step []) }
{
    match step {
        Some(step) => steps.add(step),
        None => Ok(()),
    }
}

/// Reads all lines.
fn read_steps(alloc: Global, file: &Text, text: &[u8]) -> Result<List<Step>, Fault>
    requires { length text.now ≤ 1048576 }
    ensures { Gives result (steps_from file.now 1 (lines_of text.now)) }
{
    let mut steps = List::new(alloc);
    let mut rest = text;
    let mut number = 1u32;
    while !rest.is_empty() {
        let part = read_part(alloc, file, number, rest)?;
        add(&mut steps, part.step)?;
        number += part.lines;
        rest = part.rest;
    }
    Ok(steps)
}

/// The steps of a script: a list of edits and commands, of which nothing is done here. `file` is the script's name, for
/// the places of diagnostics. It is refused with 12 on the file where it has more than 1,048,576 bytes, and else by its
/// first bad line, at column 1: 2 for one outside the grammar, and 12, 5, 6 or 18 for a path that has no name where no
/// anchor is bound.
pub fn read_script(alloc: Global, file: &Text, text: &Text) -> Result<List<Step>, Fault>
    ensures { Gives result (script_of file.now text.now) }
{
    if text.as_bytes().len() > SCRIPT_LIMIT {
        return Err(Fault::Diag(Diag::on_file(alloc, 12, file)?));
    }
    read_steps(alloc, file, text.as_bytes())
}
