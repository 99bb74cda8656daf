//! The parts of which the store's files are made, read from bytes.

ghost use Rattle.std.specs.Prelude.{◌≡◌};
ghost use Rattle.cm_bytes.specs.Fields.{byte_at, u32_at, text_at, list_at};
ghost use Rattle.bin_formats.specs.Reading.{meant_at, space_from, flag_from, options_from, name_at, hash_at};
ghost use Rattle.bin_formats.specs.Took.{Took};

use crate::fault::ReadFault;
use cm_base::{Import, List, ModName, Namespace, Need, Options, Pid, Spot, Text};
use cm_bytes::Reader;
use std::alloc::Global;

/// What a list of a file holds.
pub trait Readable: Drop {
    ghost use Rattle.cm_bytes.specs.Fields.{Step};

    ghost step: { Step Self };

    fn read(alloc: Global, reader: &mut Reader) -> Result<Self, ReadFault>
        ensures { Took (step reader.old) result reader.new };
}

pub fn read_byte(reader: &mut Reader) -> Result<u8, ReadFault>
    ensures { Took (byte_at reader.old) result reader.new }
{
    match reader.u8() {
        Ok(byte) => Ok(byte),
        Err(_) => Err(ReadFault::Unspelled),
    }
}

fn read_u32(reader: &mut Reader) -> Result<u32, ReadFault>
    ensures { Took (u32_at reader.old) result reader.new }
{
    match reader.u32() {
        Ok(number) => Ok(number),
        Err(_) => Err(ReadFault::Unspelled),
    }
}

pub fn read_text(alloc: Global, reader: &mut Reader) -> Result<Text, ReadFault>
    ensures { Took (text_at reader.old) result reader.new }
{
    match reader.slice() {
        Ok(bytes) => match Text::from_bytes(alloc, bytes) {
            Ok(text) => Ok(text),
            Err(_) => Err(ReadFault::NoMemory),
        },
        Err(_) => Err(ReadFault::Unspelled),
    }
}

fn read_space(reader: &mut Reader) -> Result<Namespace, ReadFault>
    ensures { Took (meant_at space_from byte_at reader.old) result reader.new }
{
    match read_byte(reader)? {
        0 => Ok(Namespace::Structure),
        1 => Ok(Namespace::Signature),
        2 => Ok(Namespace::Functor),
        3 => Ok(Namespace::Funsig),
        _ => Err(ReadFault::Unspelled),
    }
}

fn read_flag(reader: &mut Reader) -> Result<bool, ReadFault>
    ensures { Took (meant_at flag_from byte_at reader.old) result reader.new }
{
    match read_byte(reader)? {
        0 => Ok(false),
        1 => Ok(true),
        _ => Err(ReadFault::Unspelled),
    }
}

pub fn read_options(reader: &mut Reader) -> Result<Options, ReadFault>
    ensures { Took (meant_at options_from byte_at reader.old) result reader.new }
{
    let (nobasis, opaque) = match read_byte(reader)? {
        0 => (false, false),
        1 => (true, false),
        2 => (false, true),
        3 => (true, true),
        _ => return Err(ReadFault::Unspelled),
    };
    Ok(Options { nobasis, opaque })
}

#[tactic(auto, unfolding(crate::specs::Reading::name_at))]
fn read_name(alloc: Global, reader: &mut Reader) -> Result<ModName, ReadFault>
    ensures { Took (name_at reader.old) result reader.new }
{
    let space = read_space(reader)?;
    let name = read_text(alloc, reader)?;
    Ok(ModName { space, name })
}

#[tactic(auto, using(crate::proofs::Finding::raw_length), unfolding(crate::specs::Reading::hash_at))]
pub fn read_hash(reader: &mut Reader) -> Result<Pid, ReadFault>
    ensures { Took (hash_at reader.old) result reader.new }
{
    match reader.raw(32) {
        Ok(found) => match <[u8; 32]>::try_from(found) {
            Ok(bytes) => Ok(Pid { bytes }),
            Err(_) => Err(ReadFault::Unspelled),
        },
        Err(_) => Err(ReadFault::Unspelled),
    }
}

/// A list of as many items as its count says. It is given no room by its count, which may be any number.
#[tactic(auto, using(cm_bytes::proofs::Items::item_steps), unfolding(cm_bytes::specs::Fields::list_at))]
pub fn read_list<T: Readable>(alloc: Global, reader: &mut Reader) -> Result<List<T>, ReadFault>
    ensures { Took (list_at T.step reader.old) result reader.new }
{
    let count = read_u32(reader)?;
    let mut items = List::new(alloc);
    for _ in 0..count {
        let item = T::read(alloc, reader)?;
        items.add(item)?;
    }
    Ok(items)
}

impl Readable for Spot {
    ghost use Rattle.bin_formats.specs.Reading.{spot_at};

    ghost step = { spot_at };

    #[tactic(auto, unfolding(crate::specs::Reading::spot_at))]
    fn read(alloc: Global, reader: &mut Reader) -> Result<Self, ReadFault> {
        let name = read_name(alloc, reader)?;
        let line = read_u32(reader)?;
        let col = read_u32(reader)?;
        Ok(Spot { name, line, col })
    }
}

impl Readable for Need {
    ghost use Rattle.bin_formats.specs.Reading.{need_at};

    ghost step = { need_at };

    #[tactic(auto, unfolding(crate::specs::Reading::need_at))]
    fn read(alloc: Global, reader: &mut Reader) -> Result<Self, ReadFault> {
        let spot = Spot::read(alloc, reader)?;
        let sure = read_flag(reader)?;
        Ok(Need { spot, sure })
    }
}

impl Readable for Import {
    ghost use Rattle.bin_formats.specs.Reading.{import_at};

    ghost step = { import_at };

    #[tactic(auto, unfolding(crate::specs::Reading::import_at))]
    fn read(alloc: Global, reader: &mut Reader) -> Result<Self, ReadFault> {
        let name = read_name(alloc, reader)?;
        let provider = read_text(alloc, reader)?;
        let hash = read_hash(reader)?;
        Ok(Import {
            name,
            provider,
            hash,
        })
    }
}
