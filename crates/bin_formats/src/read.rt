//! A binfile is read: one look at its digest, and one pass over what stands before it.

ghost use Rattle.std.specs.Prelude.{◌≡◌, ℕ, List, ◌++◌, [], ◌∷◌, IfOk, MatchOption};
ghost use Rattle.sha2.specs.Sha256.{sha256};
ghost use Rattle.bin_formats.specs.Reading.{front_at, parts_at, bin_body_at, bin_at, all_of};
ghost use Rattle.bin_formats.specs.Took.{Took, TookAll, ReadsBin};

use crate::bin::Bin;
use crate::fault::ReadFault;
use crate::read_parts::{read_hash, read_list, read_options, read_text};
use crate::same::same_bytes;
use cm_base::{NoMemory, Skeleton};
use cm_bytes::Reader;
use sha2::{Digest, Sha256};
use std::alloc::Global;

/// The mark of a binfile.
fn read_mark(reader: &mut Reader) -> Result<(), ReadFault>
    ensures { Took (front_at (67 ∷ 77 ∷ 66 ∷ 49 ∷ []) reader.old) result reader.new }
{
    match reader.raw(4) {
        Ok(found) => {
            if found == b"CMB1".as_slice() {
                Ok(())
            } else {
                Err(ReadFault::Unspelled)
            }
        }
        Err(_) => Err(ReadFault::Unspelled),
    }
}

/// A binfile up to its digest.
#[tactic(auto, unfolding(crate::specs::Reading::bin_body_at, crate::specs::Reading::parts_at, crate::specs::Reading::lists_at))]
fn read_body(alloc: Global, reader: &mut Reader) -> Result<Bin, ReadFault>
    ensures { Took (bin_body_at reader.old) result reader.new }
{
    read_mark(reader)?;
    let unit = read_text(alloc, reader)?;
    let options = read_options(reader)?;
    let source = read_text(alloc, reader)?;
    let defined = read_list(alloc, reader)?;
    let free = read_list(alloc, reader)?;
    let imports = read_list(alloc, reader)?;
    let interface = read_hash(reader)?;
    let code = read_text(alloc, reader)?;
    Ok(Bin {
        unit,
        options,
        source,
        skeleton: Skeleton { defined, free },
        imports,
        interface,
        code,
    })
}

/// The binfile of which all these bytes are what stands before the digest.
fn read_whole_body(alloc: Global, body: &[u8]) -> Result<Bin, ReadFault>
    ensures { TookAll (all_of (bin_body_at body.now)) result }
{
    let mut reader = Reader::new(body);
    let bin = read_body(alloc, &mut reader)?;
    if !reader.at_end() {
        return Err(ReadFault::Unspelled);
    }
    Ok(bin)
}

/// What stands before the digest, where that is the digest of it.
fn digested(bytes: &[u8]) -> Option<&[u8]>
    ensures { MatchOption result ((body : List ℕ) → bytes.now ≡ body ++ sha256 body → ⊥)
        (λ body. bytes.now ≡ body.now ++ sha256 body.now) }
{
    if bytes.len() < 32 {
        return None;
    }
    let (body, digest) = bytes.split_at(bytes.len() - 32);
    if !same_bytes(digest, &Sha256::digest(body)) {
        return None;
    }
    Some(body)
}

/// The binfile of which all these bytes are what stands before the digest, if they are.
fn read_digested(alloc: Global, body: &[u8]) -> Result<Option<Bin>, NoMemory>
    ensures { IfOk result (λ found. found ≡ all_of (bin_body_at body.now)) }
{
    match read_whole_body(alloc, body) {
        Ok(bin) => Ok(Some(bin)),
        Err(ReadFault::Unspelled) => Ok(None),
        Err(ReadFault::NoMemory) => Err(NoMemory),
    }
}

/// The binfile that some bytes are. `None` exactly where they are no binfile: where the digest is another one, where
/// something is cut short, counted wrong or unknown, or where anything follows.
pub fn read_bin(alloc: Global, bytes: &[u8]) -> Result<Option<Bin>, NoMemory>
    ensures spelled { IfOk result (λ found. ReadsBin found bytes.now) }
    ensures read { IfOk result (λ found. found ≡ all_of (bin_at bytes.now)) }
{
    match digested(bytes) {
        Some(body) => {
            let found = read_digested(alloc, body)?;
            Ok(found)
        }
        None => Ok(None),
    }
}
