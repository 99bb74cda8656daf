//! Bytes that are written field by field.

ghost use Rattle.std.specs.Prelude.{◌≡◌, ◌<◌, ◌^◌, [], ◌∷◌, ◌++◌, length, take, OnOk, OnErr};
ghost use Rattle.cm_bytes.specs.Fields.{u32_of, text_of};

use cm_base::{NoMemory, Text};
use std::alloc::Global;
use std::marker::Model;

/// Bytes in the making, which contracts see as those that are written so far.
#[derive(Debug, Drop)]
pub struct Writer {
    bytes: Vec<u8>,
}

impl Model for Writer {
    ghost use Rattle.std.specs.Prelude.{List, ℕ};

    ghost Value = { List ℕ };

    ghost view = { λ w. w.bytes.items };
}

impl Writer {
    /// Nothing yet. It takes no memory.
    pub fn new(alloc: Global) -> Writer
        ensures { result ≡ [] }
    {
        Writer {
            bytes: Vec::new(alloc),
        }
    }

    /// Appends a byte.
    pub fn u8(&mut self, v: u8) -> Result<(), NoMemory>
        ensures ok { OnOk result (self.new ≡ self.old ++ v ∷ []) }
        ensures err { OnErr result (self.new ≡ self.old) }
    {
        Ok(self.bytes.push(v)?)
    }

    /// Appends a number.
    pub fn u32(&mut self, v: u32) -> Result<(), NoMemory>
        ensures ok { OnOk result (self.new ≡ self.old ++ u32_of v) }
        ensures err { OnErr result (self.new ≡ self.old) }
    {
        append_u32(&mut self.bytes, v)
    }

    /// Appends a text.
    pub fn text(&mut self, v: &Text) -> Result<(), NoMemory>
        requires { length v.now < 2 ^ 32 }
        ensures ok { OnOk result (self.new ≡ self.old ++ text_of v.now) }
        ensures err { OnErr result (self.new ≡ self.old) }
    {
        let len = self.bytes.len();
        let done = append_text(&mut self.bytes, v.as_bytes());
        if done.is_err() {
            self.bytes.truncate(len);
        }
        done
    }

    /// Appends bytes as they are.
    pub fn raw(&mut self, v: &[u8]) -> Result<(), NoMemory>
        ensures ok { OnOk result (self.new ≡ self.old ++ v.now) }
        ensures err { OnErr result (self.new ≡ self.old) }
    {
        Ok(self.bytes.extend_from_slice(v)?)
    }

    /// The text of all that was written.
    pub fn finish(self) -> Text
        ensures { result ≡ self }
    {
        let Writer { bytes } = self;
        Text::from_vec(bytes)
    }
}

#[tactic(auto, unfolding(crate::specs::Fields::u32_of))]
fn append_u32(out: &mut Vec<u8>, v: u32) -> Result<(), NoMemory>
    ensures ok { OnOk result (out.new.items ≡ out.old.items ++ u32_of v) }
    ensures err { OnErr result (out.new.items ≡ out.old.items) }
{
    Ok(out.extend_from_slice(&v.to_be_bytes())?)
}

// A refused append may leave the length, and nothing before it is lost.
#[tactic(auto, unfolding(crate::specs::Fields::text_of))]
fn append_text(out: &mut Vec<u8>, text: &[u8]) -> Result<(), NoMemory>
    requires { length text.now < 2 ^ 32 }
    ensures ok { OnOk result (out.new.items ≡ out.old.items ++ text_of text.now) }
    ensures err { OnErr result (take (length out.old.items) out.new.items ≡ out.old.items) }
{
    append_u32(out, text.len() as u32)?;
    Ok(out.extend_from_slice(text)?)
}
