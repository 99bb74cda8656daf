//! A file's text as a string of a structure.

ghost use Rattle.std.specs.Prelude.{◌≡◌, ◌≤◌, ◌++◌, OnOk, IfOk, codes, length};
ghost use Rattle.cm_base.specs.Derived as derived;
ghost use Rattle.bundled_tools.specs.Embedding.{head_text, string_text, embedded_text};

use crate::module_name::append_module;
use cm_base::{NoMemory, Text, Tool, ToolFault};
use cm_bytes::Writer;
use std::alloc::Global;

/// The tool of class `embed`: a structure, named by the unit, whose one value is the input as a string.
#[derive(Debug, Drop)]
pub struct Embed {
    class: Text,
    value: Text,
    ran: u64,
    ghost named: { class ≡ codes "embed" },
    ghost short: { length value ≤ 1048576 },
}

impl Embed {
    /// The tool that gives the string this value name, which isn't checked.
    pub fn new(alloc: Global, value: Text) -> Result<Embed, NoMemory>
        requires { length value ≤ 1048576 }
        ensures { IfOk result (λ tool. (tool.class ≡ codes "embed") × (tool.value ≡ value) × (tool.ran ≡ 0)) }
    {
        Ok(Embed {
            class: Text::from_bytes(alloc, b"embed")?,
            value,
            ran: 0,
        })
    }
}

// A byte as it stands in a string constant.
fn append_escaped(out: &mut Writer, byte: u8) -> Result<(), NoMemory>
    ensures { OnOk result (out.new ≡ out.old ++ derived.escaped byte) }
{
    match byte {
        b'"' | b'\\' => {
            out.u8(b'\\')?;
            out.u8(byte)
        }
        32..=126 => out.u8(byte),
        _ => {
            out.raw(&[
                b'\\',
                b'0' + byte / 100,
                b'0' + byte / 10 % 10,
                b'0' + byte % 10,
            ])
        }
    }
}

// A text as it stands in a string constant.
#[tactic(auto, unfolding(crate::specs::Embedding::string_text))]
fn append_string(out: &mut Writer, text: &[u8]) -> Result<(), NoMemory>
    ensures { OnOk result (out.new ≡ out.old ++ string_text text.now) }
{
    for byte in text {
        append_escaped(out, *byte)?;
    }
    Ok(())
}

// What stands before the string.
fn append_head(out: &mut Writer, value: &Text, unit: &Text) -> Result<(), NoMemory>
    ensures { OnOk result (out.new ≡ out.old ++ head_text value.now unit.now) }
{
    out.raw(b"structure ")?;
    append_module(out, unit.as_bytes())?;
    out.raw(b" = struct val ")?;
    out.raw(value.as_bytes())?;
    out.raw(b" = \"")
}

// A structure with one string, the input, under the value name.
fn append_embedded(
    out: &mut Writer,
    value: &Text,
    unit: &Text,
    input: &Text,
) -> Result<(), NoMemory>
    ensures { OnOk result (out.new ≡ out.old ++ embedded_text value.now unit.now input.now) }
{
    append_head(out, value, unit)?;
    append_string(out, input.as_bytes())?;
    out.raw(b"\" end\n")
}

// The text of that.
fn embedded(alloc: Global, value: &Text, unit: &Text, input: &Text) -> Result<Text, NoMemory>
    ensures { IfOk result (λ text. text ≡ embedded_text value.now unit.now input.now) }
{
    let mut out = Writer::new(alloc);
    append_embedded(&mut out, value, unit, input)?;
    Ok(out.finish())
}

impl Tool for Embed {
    ghost use Rattle.bundled_tools.specs.Rules.{embed_rule};

    ghost class = { λ tool. tool.class };

    ghost rule = { λ tool. embed_rule tool.value };

    ghost ran = { λ tool. tool.ran };

    ghost faults = { λ tool. 0 };

    fn class(&self) -> &Text {
        &self.class
    }

    #[tactic(auto, using(crate::proofs::Rules::embed_rule_length), unfolding(crate::specs::Rules::embed_rule))]
    fn rule(&self, alloc: Global) -> Result<Text, NoMemory> {
        let mut out = Writer::new(alloc);
        out.u8(0)?;
        out.text(&self.value)?;
        Ok(out.finish())
    }

    fn ran(&self) -> u64 {
        self.ran
    }

    #[tactic(auto, using(crate::proofs::Rules::embed_derives))]
    fn make(&mut self, alloc: Global, unit: &Text, input: &Text) -> Result<Text, ToolFault> {
        self.ran = self.ran.saturating_add(1);
        Ok(embedded(alloc, &self.value, unit, input)?)
    }
}
