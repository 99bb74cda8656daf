//! Where the store keeps its files.

ghost use Rattle.std.specs.Prelude.{◌≡◌, ◌<◌, ◌∷◌, ◌++◌, length, IfOk, OnOk, IfSome, MatchOption};
ghost use Rattle.bin_store.specs.Paths as paths;

use cm_base::{NoMemory, Pid, Text};
use cm_bytes::{Writer, pid_name};
use std::alloc::Global;

/// Where the binfile of a unit stands.
#[tactic(auto, unfolding(crate::specs::Paths::bin_path))]
pub fn bin_path(alloc: Global, unit: &Text) -> Result<Text, NoMemory>
    ensures { IfOk result (λ path. path ≡ paths.bin_path unit.now) }
{
    let mut path = Writer::new(alloc);
    path.raw(b".cm/bin/")?;
    append_unit(&mut path, unit.as_bytes())?;
    Ok(path.finish())
}

/// Where the interface with a hash stands.
#[tactic(auto, unfolding(crate::specs::Paths::interface_path))]
pub fn interface_path(alloc: Global, hash: &Pid) -> Result<Text, NoMemory>
    ensures { IfOk result (λ path. path ≡ paths.interface_path hash.now) }
{
    let mut path = Writer::new(alloc);
    path.raw(b".cm/int/")?;
    path.raw(pid_name(alloc, hash)?.as_bytes())?;
    Ok(path.finish())
}

// The first component of a name and the rest, if another follows.
fn first_component(name: &[u8]) -> Option<(&[u8], &[u8])>
    ensures parts { MatchOption result (paths.IsOnePart name.now)
        (λ both. paths.BeginsWith name.now both.0.now both.1.now) }
    ensures shorter { IfSome result (λ both. length both.1.now < length name.now) }
{
    for at in 0..name.len() {
        if name[at] == b'/' {
            return Some((&name[..at], &name[at + 1..]));
        }
    }
    None
}

// A component behind its mark.
fn append_marked(path: &mut Writer, mark: u8, part: &[u8]) -> Result<(), NoMemory>
    ensures { OnOk result (path.new ≡ path.old ++ mark ∷ part.now) }
{
    path.u8(mark)?;
    path.raw(part)
}

// The first component of more, marked as a directory where it isn't an anchor.
fn append_first(path: &mut Writer, part: &[u8]) -> Result<(), NoMemory>
    ensures { OnOk result (path.new ≡ path.old ++ paths.first_part part.now) }
{
    match part {
        [b'$', ..] => path.raw(part),
        _ => append_marked(path, b'_', part),
    }
}

// The components from the second on.
#[tactic(auto, using(crate::proofs::Parts::later_path_last))]
fn append_later(path: &mut Writer, name: &[u8]) -> Result<(), NoMemory>
    ensures { OnOk result (path.new ≡ path.old ++ paths.later_path name.now) }
{
    let mut rest = name;
    while let Some((part, after)) = first_component(rest) {
        append_marked(path, b'_', part)?;
        path.u8(b'/')?;
        rest = after;
    }
    append_marked(path, b'=', rest)
}

// The part of a path that belongs to a unit.
#[tactic(auto, using(crate::proofs::Parts::unit_path_only, crate::proofs::Parts::unit_path_more))]
fn append_unit(path: &mut Writer, unit: &[u8]) -> Result<(), NoMemory>
    ensures { OnOk result (path.new ≡ path.old ++ paths.unit_path unit.now) }
{
    let Some((part, rest)) = first_component(unit) else {
        return append_marked(path, b'=', unit);
    };
    append_first(path, part)?;
    path.u8(b'/')?;
    append_later(path, rest)
}
