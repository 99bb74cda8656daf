//! A record is read: one look at its digest, and one pass over what stands before it.

ghost use Rattle.std.specs.Prelude.{◌≡◌, ℕ, List, ◌++◌, [], ◌∷◌, IfOk, MatchOption};
ghost use Rattle.sha2.specs.Sha256.{sha256};
ghost use Rattle.cm_bytes.specs.Fields.{text_at};
ghost use Rattle.bin_formats.specs.Reading.{front_at, record_body_at, record_at, all_of};
ghost use Rattle.tool_records.specs.Reading.{ReadsRecord};
ghost use Rattle.tool_records.specs.Took.{Took, TookAll};

use crate::fault::ReadFault;
use bin_formats::{ToolRecord, same_bytes};
use cm_base::{NoMemory, Text};
use cm_bytes::Reader;
use sha2::{Digest, Sha256};
use std::alloc::Global;

// The mark of a record.
fn read_mark(reader: &mut Reader) -> Result<(), ReadFault>
    ensures { Took (front_at (67 ∷ 77 ∷ 84 ∷ 49 ∷ []) reader.old) result reader.new }
{
    match reader.raw(4) {
        Ok(found) => {
            if found == b"CMT1".as_slice() {
                Ok(())
            } else {
                Err(ReadFault::Unspelled)
            }
        }
        Err(_) => Err(ReadFault::Unspelled),
    }
}

fn read_text(alloc: Global, reader: &mut Reader) -> Result<Text, ReadFault>
    ensures { Took (text_at reader.old) result reader.new }
{
    match reader.slice() {
        Ok(bytes) => match Text::from_bytes(alloc, bytes) {
            Ok(text) => Ok(text),
            Err(_) => Err(ReadFault::NoMemory),
        },
        Err(_) => Err(ReadFault::Unspelled),
    }
}

// A record up to its digest.
#[tactic(auto, unfolding(bin_formats::specs::Reading::record_body_at, bin_formats::specs::Reading::texts_at))]
fn read_body(alloc: Global, reader: &mut Reader) -> Result<ToolRecord, ReadFault>
    ensures { Took (record_body_at reader.old) result reader.new }
{
    read_mark(reader)?;
    let unit = read_text(alloc, reader)?;
    let class = read_text(alloc, reader)?;
    let rule = read_text(alloc, reader)?;
    let input = read_text(alloc, reader)?;
    let output = read_text(alloc, reader)?;
    Ok(ToolRecord {
        unit,
        class,
        rule,
        input,
        output,
    })
}

// The record of which all these bytes are what stands before the digest.
fn read_whole_body(alloc: Global, body: &[u8]) -> Result<ToolRecord, ReadFault>
    ensures { TookAll (all_of (record_body_at body.now)) result }
{
    let mut reader = Reader::new(body);
    let run = read_body(alloc, &mut reader)?;
    if !reader.at_end() {
        return Err(ReadFault::Unspelled);
    }
    Ok(run)
}

// What stands before the digest, where that is the digest of it.
fn digested(bytes: &[u8]) -> Option<&[u8]>
    ensures { MatchOption result ((body : List ℕ) → bytes.now ≡ body ++ sha256 body → ⊥)
        (λ body. bytes.now ≡ body.now ++ sha256 body.now) }
{
    if bytes.len() < 32 {
        return None;
    }
    let (body, digest) = bytes.split_at(bytes.len() - 32);
    if !same_bytes(digest, &Sha256::digest(body)) {
        return None;
    }
    Some(body)
}

// The record of which all these bytes are what stands before the digest, if they are.
fn read_digested(alloc: Global, body: &[u8]) -> Result<Option<ToolRecord>, NoMemory>
    ensures { IfOk result (λ found. found ≡ all_of (record_body_at body.now)) }
{
    match read_whole_body(alloc, body) {
        Ok(run) => Ok(Some(run)),
        Err(ReadFault::Unspelled) => Ok(None),
        Err(ReadFault::NoMemory) => Err(NoMemory),
    }
}

/// The record that some bytes are. `None` exactly where they are no record: where the digest is another one, where
/// something is cut short or counted wrong, or where anything follows.
pub fn read_record(alloc: Global, bytes: &[u8]) -> Result<Option<ToolRecord>, NoMemory>
    ensures spelled { IfOk result (λ found. ReadsRecord found bytes.now) }
    ensures read { IfOk result (λ found. found ≡ all_of (record_at bytes.now)) }
{
    match digested(bytes) {
        Some(body) => {
            let found = read_digested(alloc, body)?;
            Ok(found)
        }
        None => Ok(None),
    }
}
