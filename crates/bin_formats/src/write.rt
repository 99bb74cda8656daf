//! The files of the store are written: a binfile, and an interface file.

ghost use Rattle.std.specs.Prelude.{◌≡◌, ◌<◌, ◌^◌, ◌++◌, length, All, IfOk, OnOk};
ghost use Rattle.cm_bytes.specs.Fields.{space_byte, list_of};
ghost use Rattle.bin_formats.specs.Format.{flag_byte, options_byte, name_of, spot_of, need_of, import_of, bin_body, bin_head, bin_rest, binfile, interface_file, IsSpot, IsImport, IsBin, IsShortImport, IsShortBin};

use crate::bin::Bin;
use cm_base::{Import, ModName, Namespace, Need, NoMemory, Options, Pid, Spot, Text};
use cm_bytes::Writer;
use sha2::{Digest, Sha256};
use std::alloc::Global;

fn space_code(space: Namespace) -> u8
    ensures { result ≡ space_byte space }
{
    match space {
        Namespace::Structure => 0,
        Namespace::Signature => 1,
        Namespace::Functor => 2,
        Namespace::Funsig => 3,
    }
}

fn options_code(options: Options) -> u8
    ensures { result ≡ options_byte options }
{
    match (options.nobasis, options.opaque) {
        (false, false) => 0,
        (true, false) => 1,
        (false, true) => 2,
        (true, true) => 3,
    }
}

fn write_name(out: &mut Writer, name: &ModName) -> Result<(), NoMemory>
    requires { length name.now.name < 2 ^ 32 }
    ensures { OnOk result (out.new ≡ out.old ++ name_of name.now) }
{
    out.u8(space_code(name.space))?;
    out.text(&name.name)
}

fn write_spot(out: &mut Writer, spot: &Spot) -> Result<(), NoMemory>
    requires { length spot.now.name.name < 2 ^ 32 }
    ensures written { OnOk result (out.new ≡ out.old ++ spot_of spot.now) }
    ensures fits { OnOk result (IsSpot spot.now) }
{
    write_name(out, &spot.name)?;
    out.u32(spot.line)?;
    out.u32(spot.col)
}

fn write_need(out: &mut Writer, need: &Need) -> Result<(), NoMemory>
    requires { length need.now.spot.name.name < 2 ^ 32 }
    ensures written { OnOk result (out.new ≡ out.old ++ need_of need.now) }
    ensures fits { OnOk result (IsSpot need.now.spot) }
{
    write_spot(out, &need.spot)?;
    out.u8(u8::from(need.sure))
}

fn write_import(out: &mut Writer, import: &Import) -> Result<(), NoMemory>
    requires { IsShortImport import.now }
    ensures written { OnOk result (out.new ≡ out.old ++ import_of import.now) }
    ensures fits { OnOk result (IsImport import.now) }
{
    write_name(out, &import.name)?;
    out.text(&import.provider)?;
    out.raw(hash_bytes(&import.hash))
}

#[tactic(auto, unfolding(cm_bytes::specs::Fields::list_of))]
fn write_spots(out: &mut Writer, spots: &[Spot]) -> Result<(), NoMemory>
    requires count { length spots.now < 2 ^ 32 }
    requires each { All (λ spot. length spot.name.name < 2 ^ 32) spots.now }
    ensures written { OnOk result (out.new ≡ out.old ++ list_of spot_of spots.now) }
    ensures fit { OnOk result (All IsSpot spots.now) }
{
    out.u32(spots.len() as u32)?;
    for spot in spots {
        write_spot(out, spot)?;
    }
    Ok(())
}

#[tactic(auto, unfolding(cm_bytes::specs::Fields::list_of))]
fn write_needs(out: &mut Writer, needs: &[Need]) -> Result<(), NoMemory>
    requires count { length needs.now < 2 ^ 32 }
    requires each { All (λ need. length need.spot.name.name < 2 ^ 32) needs.now }
    ensures written { OnOk result (out.new ≡ out.old ++ list_of need_of needs.now) }
    ensures fit { OnOk result (All (λ need. IsSpot need.spot) needs.now) }
{
    out.u32(needs.len() as u32)?;
    for need in needs {
        write_need(out, need)?;
    }
    Ok(())
}

#[tactic(auto, unfolding(cm_bytes::specs::Fields::list_of))]
fn write_imports(out: &mut Writer, imports: &[Import]) -> Result<(), NoMemory>
    requires count { length imports.now < 2 ^ 32 }
    requires each { All IsShortImport imports.now }
    ensures written { OnOk result (out.new ≡ out.old ++ list_of import_of imports.now) }
    ensures fit { OnOk result (All IsImport imports.now) }
{
    out.u32(imports.len() as u32)?;
    for import in imports {
        write_import(out, import)?;
    }
    Ok(())
}

#[tactic(auto, unfolding(crate::specs::Format::bin_head))]
fn write_head(out: &mut Writer, bin: &Bin) -> Result<(), NoMemory>
    requires { IsShortBin bin.now }
    ensures { OnOk result (out.new ≡ out.old ++ bin_head bin.now) }
{
    out.raw(b"CMB1")?;
    out.text(&bin.unit)?;
    out.u8(options_code(bin.options))?;
    out.text(&bin.source)
}

#[tactic(auto, unfolding(crate::specs::Format::bin_rest))]
fn write_rest(out: &mut Writer, bin: &Bin) -> Result<(), NoMemory>
    requires { IsShortBin bin.now }
    ensures written { OnOk result (out.new ≡ out.old ++ bin_rest bin.now) }
    ensures fits { OnOk result (IsBin bin.now) }
{
    write_spots(out, bin.skeleton.defined.as_slice())?;
    write_needs(out, bin.skeleton.free.as_slice())?;
    write_imports(out, bin.imports.as_slice())?;
    out.raw(hash_bytes(&bin.interface))?;
    out.text(&bin.code)
}

#[tactic(auto, using(crate::proofs::Formats::bin_body_parts))]
fn write_body(alloc: Global, bin: &Bin) -> Result<Text, NoMemory>
    requires { IsShortBin bin.now }
    ensures written { IfOk result (λ body. body ≡ bin_body bin.now) }
    ensures fits { OnOk result (IsBin bin.now) }
{
    let mut out = Writer::new(alloc);
    write_head(&mut out, bin)?;
    write_rest(&mut out, bin)?;
    Ok(out.finish())
}

/// The binfile of what a build leaves of a unit.
#[tactic(auto, unfolding(crate::specs::Format::binfile))]
pub fn write_bin(alloc: Global, bin: &Bin) -> Result<Text, NoMemory>
    requires { IsShortBin bin.now }
    ensures written { IfOk result (λ file. file ≡ binfile bin.now) }
    ensures fits { OnOk result (IsBin bin.now) }
{
    let body = write_body(alloc, bin)?;
    let mut file = Writer::new(alloc);
    file.raw(body.as_bytes())?;
    file.raw(&Sha256::digest(body.as_bytes()))?;
    Ok(file.finish())
}

/// The file of an interface.
#[tactic(auto, unfolding(crate::specs::Format::interface_file))]
pub fn write_interface(alloc: Global, interface: &Text) -> Result<Text, NoMemory>
    requires { length interface.now < 2 ^ 32 }
    ensures { IfOk result (λ file. file ≡ interface_file interface.now) }
{
    let mut out = Writer::new(alloc);
    out.raw(b"CME1")?;
    out.text(interface)?;
    Ok(out.finish())
}

// The 32 bytes of a hash.
fn hash_bytes(hash: &Pid) -> &[u8]
    ensures bytes { result.now ≡ hash.now.bytes }
    ensures long { length hash.now.bytes ≡ 32 }
{
    &hash.bytes
}
