//! The record of a tool's run is written.

ghost use Rattle.std.specs.Prelude.{◌≡◌, ◌++◌, IfOk, OnOk};
ghost use Rattle.bin_formats.specs.Format.{record_body, record_file, IsRecord};

use bin_formats::ToolRecord;
use cm_base::{NoMemory, Text};
use cm_bytes::Writer;
use sha2::{Digest, Sha256};
use std::alloc::Global;

// A record up to its digest.
#[tactic(auto, unfolding(bin_formats::specs::Format::record_body))]
fn write_body(alloc: Global, run: &ToolRecord) -> Result<Text, NoMemory>
    requires { IsRecord run.now }
    ensures { IfOk result (λ body. body ≡ record_body run.now) }
{
    let mut out = Writer::new(alloc);
    out.raw(b"CMT1")?;
    out.text(&run.unit)?;
    out.text(&run.class)?;
    out.text(&run.rule)?;
    out.text(&run.input)?;
    out.text(&run.output)?;
    Ok(out.finish())
}

/// The record of a tool's run.
#[tactic(auto, unfolding(bin_formats::specs::Format::record_file))]
pub fn write_record(alloc: Global, run: &ToolRecord) -> Result<Text, NoMemory>
    requires { IsRecord run.now }
    ensures { IfOk result (λ file. file ≡ record_file run.now) }
{
    let body = write_body(alloc, run)?;
    let mut file = Writer::new(alloc);
    file.raw(body.as_bytes())?;
    file.raw(&Sha256::digest(body.as_bytes()))?;
    Ok(file.finish())
}
