//! The binfile of a unit is found in the bytes of a file.

ghost use Rattle.std.specs.Prelude.{◌≡◌, IfOk, IfSome};
ghost use Rattle.bin_formats.specs.Format.{IsBin};
ghost use Rattle.bin_store.specs.Stored.{if_unit, bin_of_bytes, bin_found};

use bin_formats::{Bin, read_bin};
use cm_base::{NoMemory, Text};
use std::alloc::Global;

// A binfile, where it is of this unit.
fn of_unit(found: Option<Bin>, unit: &Text) -> Option<Bin>
    ensures { result ≡ if_unit unit.now found }
{
    match found {
        Some(bin) => { if bin.unit == *unit { Some(bin) } else { None } }
        None => None,
    }
}

// The binfile of a unit that some bytes are, where they aren't too many. It has a spelling.
fn bin_of_bytes(alloc: Global, unit: &Text, bytes: &[u8]) -> Result<Option<Bin>, NoMemory>
    ensures is { IfOk result (λ found. found ≡ bin_of_bytes unit.now bytes.now) }
    ensures fits { IfOk result (λ found. IfSome found IsBin) }
{
    if bytes.len() > 16_777_216 {
        return Ok(None);
    }
    let found = read_bin(alloc, bytes)?;
    Ok(of_unit(found, unit))
}

/// The binfile of a unit that a file is, if it is there and is one. It has a spelling.
pub fn bin_of_file(alloc: Global, unit: &Text, file: &Option<Text>) -> Result<Option<Bin>, NoMemory>
    ensures is { IfOk result (λ found. found ≡ bin_found unit.now file.now) }
    ensures fits { IfOk result (λ found. IfSome found IsBin) }
{
    match file {
        Some(file) => bin_of_bytes(alloc, unit, file.as_bytes()),
        None => Ok(None),
    }
}
