//! The sources of a generated project.

ghost use Rattle.std.specs.Prelude.{◌≡◌, ◌++◌, OnOk, IfOk};
ghost use Rattle.generated_projects.specs.Generating.{value_text, head_text, structure_text, source_text, again_text};

use crate::bytes::{add, add_number};
use cm_base::{NoMemory, Text};
use std::alloc::Global;

/// Adds the integer of a unit.
#[tactic(auto, unfolding(crate::specs::Generating::value_text))]
fn add_value(alloc: Global, out: &mut Vec<u8>, k: u32) -> Result<(), NoMemory>
    ensures { OnOk result (out.new.items ≡ out.old.items ++ value_text k) }
{
    if k == 1 {
        return add(out, b"1");
    }
    add(out, b"U")?;
    add_number(alloc, out, k / 2)?;
    add(out, b".n + 1")?;
    Ok(())
}

/// Adds what stands before the integer of a unit.
#[tactic(auto, unfolding(crate::specs::Generating::head_text))]
fn add_head(alloc: Global, out: &mut Vec<u8>, k: u32) -> Result<(), NoMemory>
    ensures { OnOk result (out.new.items ≡ out.old.items ++ head_text k) }
{
    add(out, b"structure U")?;
    add_number(alloc, out, k)?;
    add(out, b" = struct val n = ")?;
    Ok(())
}

/// Adds the structure of a unit.
#[tactic(auto, unfolding(crate::specs::Generating::structure_text))]
fn add_structure(alloc: Global, out: &mut Vec<u8>, k: u32) -> Result<(), NoMemory>
    ensures { OnOk result (out.new.items ≡ out.old.items ++ structure_text k) }
{
    add_head(alloc, out, k)?;
    add_value(alloc, out, k)?;
    add(out, b" end")?;
    Ok(())
}

/// The source of a unit.
pub fn source_text(alloc: Global, k: u32) -> Result<Text, NoMemory>
    ensures { IfOk result (λ text. text ≡ source_text k) }
{
    let mut text = Vec::new(alloc);
    add_structure(alloc, &mut text, k)?;
    add(&mut text, b"\n")?;
    Ok(Text::from_vec(text))
}

/// The source of a unit, with a comment behind it.
#[tactic(auto, unfolding(crate::specs::Generating::comment_text))]
pub fn again_text(alloc: Global, k: u32) -> Result<Text, NoMemory>
    ensures { IfOk result (λ text. text ≡ again_text k) }
{
    let mut text = Vec::new(alloc);
    add_structure(alloc, &mut text, k)?;
    add(&mut text, b" (* again *)")?;
    add(&mut text, b"\n")?;
    Ok(Text::from_vec(text))
}
