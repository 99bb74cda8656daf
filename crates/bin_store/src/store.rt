//! The store in a folder: whole files are read, and files are put.

ghost use Rattle.std.specs.Prelude.{◌≡◌, ◌<◌, ◌^◌, ◌∷◌, Err, IfOk, IfSome, OnOk, length, is_some};
ghost use Rattle.std.specs.Option.{option_copied};
ghost use Rattle.std.specs.FinMap.{get, insert};
ghost use Rattle.cm_base.specs.Files.{Told, told};
ghost use Rattle.cm_base.specs.Causes.{HasCause};
ghost use Rattle.cm_bytes.specs.Fields.{u32_of};
ghost use Rattle.cm_bytes.specs.Hashes.{hash_of};
ghost use Rattle.bin_formats.specs.Format.{binfile, IsBin, IsShortBin};
ghost use Rattle.bin_store.specs.Paths as paths;
ghost use Rattle.bin_store.specs.Stored.{interface_in, interface_found, stored_interface, stored_bin, with_interface, PutsInterface, PutsBin};

use crate::fault::StoreFault;
use crate::found::bin_of_file;
use crate::paths::{bin_path, interface_path};
use bin_formats::{Bin, same_bytes, write_bin, write_interface};
use cm_base::{Folder, NoMemory, Pid, Text, put_file, read_front};
use cm_bytes::{pid_of, same_pid};
use std::alloc::Global;

// What stands before the interface in its file.
#[tactic(auto, unfolding(cm_bytes::specs::Fields::u32_of))]
fn interface_head(length: u32) -> [u8; 8]
    ensures { result ≡ 67 ∷ 77 ∷ 69 ∷ 49 ∷ u32_of length }
{
    let [a, b, c, d] = length.to_be_bytes();
    [b'C', b'M', b'E', b'1', a, b, c, d]
}

// The interface with a hash, where the bytes are its whole file.
fn interface_of<'a>(bytes: &'a [u8], pid: &Pid) -> Option<&'a [u8]>
    ensures { option_copied result ≡ interface_in pid.now bytes.now }
{
    if bytes.len() > 1_048_584 {
        return None;
    }
    if bytes.len() < 8 {
        return None;
    }
    let (head, text) = bytes.split_at(8);
    if !same_bytes(head, &interface_head(text.len() as u32)) {
        return None;
    }
    if !same_pid(&pid_of(text), pid) {
        return None;
    }
    Some(text)
}

// The file of an interface, as far as it may be whole.
fn read_interface<F: Folder>(
    alloc: Global,
    folder: &mut F,
    pid: &Pid,
) -> Result<Option<Text>, StoreFault>
    ensures cause { HasCause (F.faults folder.old) (F.faults folder.new) (result ≡ Err StoreFault.Folder) }
    ensures same { F.holds folder.new ≡ F.holds folder.old }
    ensures read { Told (F.holds folder.old) (λ files. IfOk result (λ file. interface_found pid.now file
        ≡ stored_interface files pid.now)) }
{
    let path = interface_path(alloc, pid)?;
    let file = read_front(alloc, folder, &path, 1_048_584)?;
    Ok(file)
}

/// The interface with a hash. `None` exactly where none stands whole.
pub fn get_interface<F: Folder>(
    alloc: Global,
    folder: &mut F,
    pid: &Pid,
) -> Result<Option<Text>, StoreFault>
    ensures cause { HasCause (F.faults folder.old) (F.faults folder.new) (result ≡ Err StoreFault.Folder) }
    ensures same { F.holds folder.new ≡ F.holds folder.old }
    ensures found { Told (F.holds folder.old) (λ files. IfOk result (λ found. found
        ≡ stored_interface files pid.now)) }
{
    let file = read_interface(alloc, folder, pid)?;
    Ok(taken(alloc, &file, pid)?)
}

// The interface of a file, copied.
fn taken(alloc: Global, file: &Option<Text>, pid: &Pid) -> Result<Option<Text>, NoMemory>
    ensures { IfOk result (λ found. found ≡ interface_found pid.now file.now) }
{
    let Some(file) = file else {
        return Ok(None);
    };
    match interface_of(file.as_bytes(), pid) {
        Some(interface) => Ok(Some(Text::from_bytes(alloc, interface)?)),
        None => Ok(None),
    }
}

// Whether a file is that of an interface with this hash.
fn is_there(file: &Option<Text>, pid: &Pid) -> bool
    ensures { result ≡ is_some (interface_found pid.now file.now) }
{
    match file {
        Some(file) => interface_of(file.as_bytes(), pid).is_some(),
        None => false,
    }
}

// Whether an interface with a hash stands whole.
fn has_interface<F: Folder>(alloc: Global, folder: &mut F, pid: &Pid) -> Result<bool, StoreFault>
    ensures cause { HasCause (F.faults folder.old) (F.faults folder.new) (result ≡ Err StoreFault.Folder) }
    ensures same { F.holds folder.new ≡ F.holds folder.old }
    ensures found { Told (F.holds folder.old) (λ files. IfOk result (λ found. found
        ≡ is_some (stored_interface files pid.now))) }
{
    let file = read_interface(alloc, folder, pid)?;
    Ok(is_there(&file, pid))
}

/// Puts an interface, and answers its hash. It is written only where none with that hash stands whole. A
/// refused put leaves the old bytes, nothing, or a front of the file there, and each other file as it was.
pub fn put_interface<F: Folder>(
    alloc: Global,
    folder: &mut F,
    bytes: &Text,
) -> Result<Pid, StoreFault>
    requires { length bytes.now < 2 ^ 32 }
    ensures cause { HasCause (F.faults folder.old) (F.faults folder.new) (result ≡ Err StoreFault.Folder) }
    ensures pid { IfOk result (λ pid. pid ≡ hash_of bytes.now) }
    ensures done { OnOk result (F.holds folder.new
        ≡ told (λ files. with_interface files bytes.now) (F.holds folder.old)) }
    ensures leaves { PutsInterface (F.holds folder.old) (F.holds folder.new) bytes.now }
{
    let pid = pid_of(bytes.as_bytes());
    if has_interface(alloc, folder, &pid)? {
        return Ok(pid);
    }
    let path = interface_path(alloc, &pid)?;
    let file = write_interface(alloc, bytes)?;
    put_file(alloc, folder, &path, &file)?;
    Ok(pid)
}

/// Puts the binfile of a unit. A refused put leaves the old bytes, nothing, or a front of the binfile there, and
/// each other file as it was.
pub fn put_bin<F: Folder>(alloc: Global, folder: &mut F, bin: &Bin) -> Result<(), StoreFault>
    requires { IsShortBin bin.now }
    ensures cause { HasCause (F.faults folder.old) (F.faults folder.new) (result ≡ Err StoreFault.Folder) }
    ensures fits { OnOk result (IsBin bin.now) }
    ensures done { OnOk result (F.holds folder.new
        ≡ told (λ files. insert files (paths.bin_path bin.now.unit) (binfile bin.now)) (F.holds folder.old)) }
    ensures leaves { PutsBin (F.holds folder.old) (F.holds folder.new) bin.now }
{
    let path = bin_path(alloc, &bin.unit)?;
    let file = write_bin(alloc, bin)?;
    Ok(put_file(alloc, folder, &path, &file)?)
}

/// The binfile of a unit. `None` exactly where none stands whole at its place: where no file is there, where it is longer
/// than a binfile may be, where its bytes are no binfile, or where they are another unit's. One that is found has a
/// spelling, also in a folder that doesn't tell its files.
pub fn get_bin<F: Folder>(
    alloc: Global,
    folder: &mut F,
    unit: &Text,
) -> Result<Option<Bin>, StoreFault>
    ensures cause { HasCause (F.faults folder.old) (F.faults folder.new) (result ≡ Err StoreFault.Folder) }
    ensures same { F.holds folder.new ≡ F.holds folder.old }
    ensures found { Told (F.holds folder.old) (λ files. IfOk result (λ found. found ≡ stored_bin files unit.now)) }
    ensures fits { IfOk result (λ found. IfSome found IsBin) }
{
    let path = bin_path(alloc, unit)?;
    let file = read_front(alloc, folder, &path, 16_777_216)?;
    Ok(bin_of_file(alloc, unit, &file)?)
}
