//! Hashes of texts, and the names of hashes.

ghost use Rattle.std.specs.Prelude.{◌≡◌, ◌↔◌, IsTrue, IfOk};
ghost use Rattle.cm_bytes.specs.Hashes.{hash_of, pid_text};

use cm_base::{NoMemory, Pid, Text};
use sha2::{Digest, Sha256};
use std::alloc::Global;

/// The hash of some bytes.
#[tactic(auto, unfolding(crate::specs::Hashes::hash_of))]
pub fn pid_of(bytes: &[u8]) -> Pid
    ensures { result ≡ hash_of bytes.now }
{
    Pid {
        bytes: Sha256::digest(bytes),
    }
}

/// Whether two hashes are one.
pub fn same_pid(a: &Pid, b: &Pid) -> bool
    ensures { IsTrue result ↔ (a.now ≡ b.now) }
{
    a.bytes == b.bytes
}

/// The name of a hash, as files have it: 64 hex digits in lower case.
#[tactic(auto, unfolding(crate::specs::Hashes::pid_text))]
pub fn pid_name(alloc: Global, p: &Pid) -> Result<Text, NoMemory>
    ensures { IfOk result (λ name. name ≡ pid_text p.now) }
{
    let name = hex::encode(alloc, p.bytes.as_slice())?;
    Ok(Text::from_vec(name.into_bytes()))
}
