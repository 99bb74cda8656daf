//! The code of a literate source: the lines that begin with `>`.

ghost use Rattle.std.specs.Prelude.{◌≡◌, ◌<◌, ◌++◌, OnOk, IfOk, IfSome, MatchOption, codes, length};
ghost use Rattle.cm_base.specs.Derived.{code_line};
ghost use Rattle.bundled_tools.specs.Lines as lines;

use cm_base::{NoMemory, Text, Tool, ToolFault};
use cm_bytes::Writer;
use std::alloc::Global;

/// The tool of class `literate`: each line that begins with `>` stays, with a space for that byte, and the others are
/// emptied, so that each line keeps its number.
#[derive(Debug, Drop)]
pub struct Literate {
    class: Text,
    ran: u64,
    ghost named: { class ≡ codes "literate" },
}

impl Literate {
    pub fn new(alloc: Global) -> Result<Literate, NoMemory>
        ensures { IfOk result (λ tool. (tool.class ≡ codes "literate") × (tool.ran ≡ 0)) }
    {
        Ok(Literate {
            class: Text::from_bytes(alloc, b"literate")?,
            ran: 0,
        })
    }
}

// The first line of a text and what follows its line feed, if it has one.
fn first_line(text: &[u8]) -> Option<(&[u8], &[u8])>
    ensures parts { MatchOption result (lines.IsOneLine text.now)
        (λ both. lines.BeginsWithLine text.now both.0.now both.1.now) }
    ensures shorter { IfSome result (λ both. length both.1.now < length text.now) }
{
    for at in 0..text.len() {
        if text[at] == b'\n' {
            return Some((&text[..at], &text[at + 1..]));
        }
    }
    None
}

// A line with its mark made a space; any other line is empty.
fn append_line(out: &mut Writer, line: &[u8]) -> Result<(), NoMemory>
    ensures { OnOk result (out.new ≡ out.old ++ code_line line.now) }
{
    match line {
        [b'>', rest @ ..] => {
            out.u8(b' ')?;
            out.raw(rest)
        }
        _ => Ok(()),
    }
}

// All lines, each line feed where it was.
#[tactic(auto, using(crate::proofs::Lines::code_last))]
fn append_code(out: &mut Writer, input: &[u8]) -> Result<(), NoMemory>
    ensures { OnOk result (out.new ≡ out.old ++ lines.code_text input.now) }
{
    let mut rest = input;
    while let Some((line, after)) = first_line(rest) {
        append_line(out, line)?;
        out.u8(b'\n')?;
        rest = after;
    }
    append_line(out, rest)
}

// The code of a literate source.
fn code_text(alloc: Global, input: &Text) -> Result<Text, NoMemory>
    ensures { IfOk result (λ text. text ≡ lines.code_text input.now) }
{
    let mut out = Writer::new(alloc);
    append_code(&mut out, input.as_bytes())?;
    Ok(out.finish())
}

impl Tool for Literate {
    ghost use Rattle.bundled_tools.specs.Rules.{literate_rule};

    ghost class = { λ tool. tool.class };

    ghost rule = { λ tool. literate_rule };

    ghost ran = { λ tool. tool.ran };

    ghost faults = { λ tool. 0 };

    fn class(&self) -> &Text {
        &self.class
    }

    #[tactic(auto, unfolding(crate::specs::Rules::literate_rule))]
    fn rule(&self, alloc: Global) -> Result<Text, NoMemory> {
        Text::from_bytes(alloc, &[1])
    }

    fn ran(&self) -> u64 {
        self.ran
    }

    #[tactic(auto, using(crate::proofs::Rules::literate_derives))]
    fn make(&mut self, alloc: Global, unit: &Text, input: &Text) -> Result<Text, ToolFault> {
        self.ran = self.ran.saturating_add(1);
        Ok(code_text(alloc, input)?)
    }
}
