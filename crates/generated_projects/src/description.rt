//! The description of a generated project.

ghost use Rattle.std.specs.Prelude.{◌≡◌, ◌+◌, ◌<◌, ◌^◌, ◌++◌, OnOk, IfOk};
ghost use Rattle.generated_projects.specs.Generating.{source_name, member_line, description_path, description_text, source_path};

use crate::bytes::{add, add_number};
use cm_base::{NoMemory, Text};
use std::alloc::Global;

/// Adds the name of a unit's source, as the description has it.
#[tactic(auto, unfolding(crate::specs::Generating::source_name))]
fn add_source_name(alloc: Global, out: &mut Vec<u8>, k: u32) -> Result<(), NoMemory>
    ensures { OnOk result (out.new.items ≡ out.old.items ++ source_name k) }
{
    add(out, b"u")?;
    add_number(alloc, out, k)?;
    add(out, b".sml")?;
    Ok(())
}

/// Adds the line of a member.
fn add_member_line(alloc: Global, out: &mut Vec<u8>, k: u32) -> Result<(), NoMemory>
    ensures { OnOk result (out.new.items ≡ out.old.items ++ member_line k) }
{
    add_source_name(alloc, out, k)?;
    add(out, b"\n")
}

/// The path of the description.
#[tactic(auto, unfolding(crate::specs::Generating::description_path))]
pub fn description_path(alloc: Global) -> Result<Text, NoMemory>
    ensures { IfOk result (λ path. path ≡ description_path) }
{
    Text::from_bytes(alloc, b"gen/main.cm")
}

/// The path of a unit's source.
#[tactic(auto, unfolding(crate::specs::Generating::source_path))]
pub fn source_path(alloc: Global, k: u32) -> Result<Text, NoMemory>
    ensures { IfOk result (λ path. path ≡ source_path k) }
{
    let mut path = Vec::new(alloc);
    add(&mut path, b"gen/")?;
    add_source_name(alloc, &mut path, k)?;
    Ok(Text::from_vec(path))
}

/// The description of a group of so many units.
#[tactic(auto, unfolding(crate::specs::Generating::group_line))]
pub fn description_text(alloc: Global, n: u32) -> Result<Text, NoMemory>
    requires { n + 1 < 2 ^ 32 }
    ensures { IfOk result (λ text. text ≡ description_text n) }
{
    let mut text = Vec::new(alloc);
    add(&mut text, b"Group is\n")?;
    for k in 1..n + 1 {
        add_member_line(alloc, &mut text, k)?;
    }
    Ok(Text::from_vec(text))
}
