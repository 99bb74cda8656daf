//! The record of a unit is found in the bytes of a file.

ghost use Rattle.std.specs.Prelude.{◌≡◌, IfOk};
ghost use Rattle.tool_records.specs.Stored.{if_unit, record_of_bytes, record_found};

use crate::read::read_record;
use bin_formats::ToolRecord;
use cm_base::{NoMemory, Text};
use std::alloc::Global;

// A record, where it is of this unit.
fn of_unit(found: Option<ToolRecord>, unit: &Text) -> Option<ToolRecord>
    ensures { result ≡ if_unit unit.now found }
{
    match found {
        Some(run) => { if run.unit == *unit { Some(run) } else { None } }
        None => None,
    }
}

// The record of a unit that some bytes are, where they aren't too many.
fn record_of_bytes(alloc: Global, unit: &Text, bytes: &[u8]) -> Result<Option<ToolRecord>, NoMemory>
    ensures { IfOk result (λ found. found ≡ record_of_bytes unit.now bytes.now) }
{
    if bytes.len() > 16_777_216 {
        return Ok(None);
    }
    let found = read_record(alloc, bytes)?;
    Ok(of_unit(found, unit))
}

/// The record of a unit that a file is, if it is there and is one.
pub fn record_of_file(
    alloc: Global,
    unit: &Text,
    file: &Option<Text>,
) -> Result<Option<ToolRecord>, NoMemory>
    ensures { IfOk result (λ found. found ≡ record_found unit.now file.now) }
{
    match file {
        Some(file) => record_of_bytes(alloc, unit, file.as_bytes()),
        None => Ok(None),
    }
}
