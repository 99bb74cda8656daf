//! Records in a folder: the whole one of a unit is read, and one is put.

ghost use Rattle.std.specs.Prelude.{◌≡◌, ◌≤◌, Err, IfOk, OnOk, drop, length};
ghost use Rattle.cm_base.specs.Files.{Told, told};
ghost use Rattle.cm_base.specs.Causes.{HasCause};
ghost use Rattle.bin_formats.specs.Format.{IsRecord};
ghost use Rattle.bin_store.specs.Paths as paths;
ghost use Rattle.tool_records.specs.Stored.{stored_record, with_record, PutsRecord};

use crate::found::record_of_file;
use crate::write::write_record;
use bin_formats::ToolRecord;
use bin_store::{StoreFault, bin_path};
use cm_base::{Folder, NoMemory, Text, put_file, read_front};
use cm_bytes::Writer;
use std::alloc::Global;

// What stands behind `.cm/bin/` in the path of a binfile.
fn unit_part(path: &[u8]) -> &[u8]
    requires { 8 ≤ length path.now }
    ensures { result.now ≡ drop 8 path.now }
{
    &path[8..]
}

/// Where the record of a unit's tool stands: below `.cm/tool/` as the unit's binfile stands below `.cm/bin/`.
#[tactic(auto, using(crate::proofs::Paths::unit_part, crate::proofs::Paths::beside_is_long))]
pub fn tool_path(alloc: Global, unit: &Text) -> Result<Text, NoMemory>
    ensures { IfOk result (λ path. path ≡ paths.tool_path unit.now) }
{
    let beside = bin_path(alloc, unit)?;
    let mut path = Writer::new(alloc);
    path.raw(b".cm/tool/")?;
    path.raw(unit_part(beside.as_bytes()))?;
    Ok(path.finish())
}

/// The record of a unit. `None` exactly where none stands whole at its place: where no file is there, where it is
/// longer than a record may be, where its bytes are no record, or where they are another unit's.
pub fn get_record<F: Folder>(
    alloc: Global,
    folder: &mut F,
    unit: &Text,
) -> Result<Option<ToolRecord>, StoreFault>
    ensures cause { HasCause (F.faults folder.old) (F.faults folder.new) (result ≡ Err StoreFault.Folder) }
    ensures same { F.holds folder.new ≡ F.holds folder.old }
    ensures found { Told (F.holds folder.old) (λ files. IfOk result (λ found. found ≡ stored_record files unit.now)) }
{
    let path = tool_path(alloc, unit)?;
    let file = read_front(alloc, folder, &path, 16_777_216)?;
    Ok(record_of_file(alloc, unit, &file)?)
}

/// Puts the record of a unit's tool. A refused put leaves the old bytes, nothing, or a front of the record there, and
/// each other file as it was.
pub fn put_record<F: Folder>(
    alloc: Global,
    folder: &mut F,
    run: &ToolRecord,
) -> Result<(), StoreFault>
    requires { IsRecord run.now }
    ensures cause { HasCause (F.faults folder.old) (F.faults folder.new) (result ≡ Err StoreFault.Folder) }
    ensures done { OnOk result (F.holds folder.new ≡ told (λ files. with_record files run.now) (F.holds folder.old)) }
    ensures leaves { PutsRecord (F.holds folder.old) (F.holds folder.new) run.now }
{
    let path = tool_path(alloc, &run.unit)?;
    let file = write_record(alloc, run)?;
    Ok(put_file(alloc, folder, &path, &file)?)
}
