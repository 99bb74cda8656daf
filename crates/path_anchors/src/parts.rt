//! The components of paths, and where they lead.

ghost use Rattle.std.specs.Prelude.{◌≡◌, ◌++◌, IfOk, OnOk, nat_lt, length};
ghost use Rattle.std.specs.List.{list_any};
ghost use Rattle.path_anchors.specs.Names.{parts_of, path_of, is_stay, is_up, above, stepped, walked, begins_with, passes_limit, Walks};

use crate::fault::PathFault;
use cm_base::{List, NoMemory, Text};
use std::alloc::Global;

const PATH_LIMIT: usize = 1024;

const PART_LIMIT: usize = 200;

/// The components of a path: what stands between its slashes.
pub fn parts_of(alloc: Global, path: &[u8]) -> Result<List<Text>, NoMemory>
    ensures { IfOk result (λ parts. parts ≡ parts_of path.now) }
{
    let mut parts = List::new(alloc);
    for part in path.split(|byte| *byte == b'/') {
        parts.add(Text::from_bytes(alloc, part)?)?;
    }
    Ok(parts)
}

/// Adds components at the end.
pub fn append(parts: &mut List<Text>, more: &[Text]) -> Result<(), NoMemory>
    ensures { OnOk result (parts.new ≡ parts.old ++ more.now) }
{
    for part in more {
        parts.add(part.copy()?)?;
    }
    Ok(())
}

/// Components as a path, with slashes between them.
#[tactic(auto, using(crate::proofs::PartLemmas::path_of_more))]
pub fn path_of(alloc: Global, parts: &[Text]) -> Result<Text, NoMemory>
    ensures { IfOk result (λ path. path ≡ path_of parts.now) }
{
    let mut path = Vec::new(alloc);
    if let [first, rest @ ..] = parts {
        path.extend_from_slice(first.as_bytes())?;
        for part in rest {
            path.push(b'/')?;
            path.extend_from_slice(part.as_bytes())?;
        }
    }
    Ok(Text::from_vec(path))
}

/// Whether a component passes its limit of 200 bytes.
fn is_long_part(part: &[u8]) -> bool
    ensures { result ≡ nat_lt 200 (length part.now) }
{
    part.len() > PART_LIMIT
}

/// Whether one of the components passes its limit.
fn has_long_part(path: &[u8]) -> bool
    ensures { result ≡ list_any (λ part. nat_lt 200 (length part)) (parts_of path.now) }
{
    path.split(|byte| *byte == b'/')
        .any(|part| is_long_part(part))
}

/// Whether a path passes its limit of 1,024 bytes, or one of its components that of 200.
pub fn passes_limit(path: &[u8]) -> bool
    ensures { result ≡ passes_limit path.now }
{
    path.len() > PATH_LIMIT || has_long_part(path)
}

/// Whether a component leads nowhere: an empty one, or `.`.
pub fn is_stay(part: &[u8]) -> bool
    ensures { result ≡ is_stay part.now }
{
    part.is_empty() || part == b".".as_slice()
}

/// Whether a component is `..`.
pub fn is_up(part: &[u8]) -> bool
    ensures { result ≡ is_up part.now }
{
    part == b"..".as_slice()
}

/// Goes where a component leads. 6 where it climbs above the top.
#[tactic(auto, using(crate::proofs::PartLemmas::above_last))]
fn step(here: &mut List<Text>, part: &Text) -> Result<(), PathFault>
    ensures { Walks result (stepped here.old part.now) here.new }
{
    if is_stay(part.as_bytes()) {
        return Ok(());
    }
    if !is_up(part.as_bytes()) {
        here.add(part.copy()?)?;
        return Ok(());
    }
    match here.pop() {
        Some(_last) => Ok(()),
        None => Err(PathFault::Number(6)),
    }
}

/// Goes where components lead, one after the other. 6 where they climb above the top.
pub fn walk(here: &mut List<Text>, parts: &[Text]) -> Result<(), PathFault>
    ensures { Walks result (walked here.old parts.now) here.new }
{
    for part in parts {
        step(here, part)?;
    }
    Ok(())
}
