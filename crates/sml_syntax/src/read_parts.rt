//! The parts of which every node is made, read from bytes.

ghost use Rattle.std.specs.Prelude.{◌≡◌, ◌+◌, length, MatchResult};
ghost use Rattle.std.specs.Int.{w64, from_be_bytes};
ghost use Rattle.cm_bytes.specs.Fields.{byte_at, u32_at, text_at, list_at};
ghost use Rattle.sml_syntax.specs.Reading.{name_at, long_at, int_at};
ghost use Rattle.sml_syntax.specs.Took.{Took};

use crate::fault::CodeFault;
use cm_base::{List, Text};
use cm_bytes::Reader;
use sml_trees::{LongName, Name};
use std::alloc::Global;

/// What has bytes of its own, wherever it stands in the code, with at most so many tags in one another.
pub trait Readable: Drop {
    ghost use Rattle.std.specs.Prelude.{ℕ};
    ghost use Rattle.cm_bytes.specs.Fields.{Step};

    ghost step: { ℕ → Step Self };

    fn read(alloc: Global, reader: &mut Reader, depth: u32) -> Result<Self, CodeFault>
        ensures { Took (step depth reader.old) result reader.new };
}

/// One tag less, or none is left.
pub fn deeper(depth: u32) -> Result<u32, CodeFault>
    ensures { MatchResult result (λ below. depth ≡ below + 1) (λ fault. (fault ≡ CodeFault.BadCode) × (depth ≡ 0)) }
{
    depth.checked_sub(1).ok_or(CodeFault::BadCode)
}

pub fn read_byte(reader: &mut Reader) -> Result<u8, CodeFault>
    ensures { Took (byte_at reader.old) result reader.new }
{
    match reader.u8() {
        Ok(byte) => Ok(byte),
        Err(_) => Err(CodeFault::BadCode),
    }
}

pub fn read_count(reader: &mut Reader) -> Result<u32, CodeFault>
    ensures { Took (u32_at reader.old) result reader.new }
{
    match reader.u32() {
        Ok(count) => Ok(count),
        Err(_) => Err(CodeFault::BadCode),
    }
}

pub fn read_text(alloc: Global, reader: &mut Reader) -> Result<Text, CodeFault>
    ensures { Took (text_at reader.old) result reader.new }
{
    match reader.slice() {
        Ok(bytes) => match Text::from_bytes(alloc, bytes) {
            Ok(text) => Ok(text),
            Err(_) => Err(CodeFault::NoMemory),
        },
        Err(_) => Err(CodeFault::BadCode),
    }
}

#[tactic(auto, using(crate::proofs::Integers::raw_length), unfolding(crate::specs::Reading::u64_at, crate::specs::Reading::int_at, crate::specs::Steps::made))]
pub fn read_int(reader: &mut Reader) -> Result<i64, CodeFault>
    ensures { Took (int_at reader.old) result reader.new }
{
    match reader.raw(8) {
        Ok(bytes) => Ok(number_of(bytes).cast_signed()),
        Err(_) => Err(CodeFault::BadCode),
    }
}

/// The number in eight bytes, the most significant first.
#[tactic(auto, using(crate::proofs::Integers::eight_are))]
fn number_of(bytes: &[u8]) -> u64
    requires { length bytes.now ≡ 8 }
    ensures { result ≡ from_be_bytes w64 bytes.now }
{
    u64::from_be_bytes([
        bytes[0], bytes[1], bytes[2], bytes[3], bytes[4], bytes[5], bytes[6], bytes[7],
    ])
}

#[tactic(auto, unfolding(crate::specs::Reading::name_at, crate::specs::Steps::made))]
pub fn read_name(alloc: Global, reader: &mut Reader) -> Result<Name, CodeFault>
    ensures { Took (name_at reader.old) result reader.new }
{
    let text = read_text(alloc, reader)?;
    Ok(Name {
        text,
        line: 0,
        col: 0,
    })
}

#[tactic(auto, unfolding(crate::specs::Reading::long_at, crate::specs::Steps::made))]
pub fn read_long(alloc: Global, reader: &mut Reader) -> Result<LongName, CodeFault>
    ensures { Took (long_at reader.old) result reader.new }
{
    let parts: List<Text> = read_list(alloc, reader, 0)?;
    Ok(LongName {
        parts,
        line: 0,
        col: 0,
    })
}

#[tactic(auto, using(crate::proofs::ReadSteps::item_steps), unfolding(cm_bytes::specs::Fields::list_at))]
pub fn read_list<T: Readable>(
    alloc: Global,
    reader: &mut Reader,
    depth: u32,
) -> Result<List<T>, CodeFault>
    ensures { Took (list_at (T.step depth) reader.old) result reader.new }
{
    let count = read_count(reader)?;
    let mut items = List::new(alloc);
    for _ in 0..count {
        let item = T::read(alloc, reader, depth)?;
        items.add(item)?;
    }
    Ok(items)
}

impl Readable for Text {
    ghost use Rattle.cm_bytes.specs.Fields.{text_at};

    ghost step = { λ depth. text_at };

    fn read(alloc: Global, reader: &mut Reader, _depth: u32) -> Result<Self, CodeFault> {
        read_text(alloc, reader)
    }
}

impl Readable for Name {
    ghost use Rattle.sml_syntax.specs.Reading.{name_at};

    ghost step = { λ depth. name_at };

    fn read(alloc: Global, reader: &mut Reader, _depth: u32) -> Result<Self, CodeFault> {
        read_name(alloc, reader)
    }
}

impl Readable for LongName {
    ghost use Rattle.sml_syntax.specs.Reading.{long_at};

    ghost step = { λ depth. long_at };

    fn read(alloc: Global, reader: &mut Reader, _depth: u32) -> Result<Self, CodeFault> {
        read_long(alloc, reader)
    }
}
