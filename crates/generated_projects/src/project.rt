//! The steps that make a generated project.

ghost use Rattle.std.specs.Prelude.{◌≡◌, ◌+◌, ◌<◌, ◌≤◌, ◌^◌, ◌++◌, OnOk, IfOk, map};
ghost use Rattle.generated_projects.specs.Generating.{numbers, write_description, write_source, write_again, build_project, generated};

use crate::description::{description_path, description_text, source_path};
use crate::source::{again_text, source_text};
use cm_base::{List, NoMemory, Text};
use session_scripts::Step;
use std::alloc::Global;

/// The step that writes the description.
fn write_description(alloc: Global, n: u32) -> Result<Step, NoMemory>
    requires { n + 1 < 2 ^ 32 }
    ensures { IfOk result (λ step. step ≡ write_description n) }
{
    Ok(Step::Write {
        path: description_path(alloc)?,
        content: description_text(alloc, n)?,
    })
}

/// The step that writes a unit's source.
fn write_source(alloc: Global, k: u32) -> Result<Step, NoMemory>
    ensures { IfOk result (λ step. step ≡ write_source k) }
{
    Ok(Step::Write {
        path: source_path(alloc, k)?,
        content: source_text(alloc, k)?,
    })
}

/// The step that writes a unit's source again, with a comment.
fn write_again(alloc: Global, k: u32) -> Result<Step, NoMemory>
    ensures { IfOk result (λ step. step ≡ write_again k) }
{
    Ok(Step::Write {
        path: source_path(alloc, k)?,
        content: again_text(alloc, k)?,
    })
}

/// The command that builds the project.
#[tactic(auto, unfolding(crate::specs::Generating::build_word))]
fn build_project(alloc: Global) -> Result<Step, NoMemory>
    ensures { IfOk result (λ step. step ≡ build_project) }
{
    let mut words = List::new(alloc);
    words.add(Text::from_bytes(alloc, b"build")?)?;
    words.add(description_path(alloc)?)?;
    Ok(Step::Command { words })
}

/// Adds the steps that write all sources.
fn add_sources(alloc: Global, steps: &mut List<Step>, n: u32) -> Result<(), NoMemory>
    requires { n + 1 < 2 ^ 32 }
    ensures { OnOk result (steps.new ≡ steps.old ++ map write_source (numbers n)) }
{
    for k in 1..n + 1 {
        steps.add(write_source(alloc, k)?)?;
    }
    Ok(())
}

/// The steps that make a project of so many units, from 1 to 2,000, in the folder `gen`: its description and its
/// sources are written, it is built, the source in the middle is written again with a comment, and it is built again.
pub fn generated_steps(alloc: Global, n: u32) -> Result<List<Step>, NoMemory>
    requires least { 1 ≤ n }
    requires greatest { n ≤ 2000 }
    ensures { IfOk result (λ steps. steps ≡ generated n) }
{
    let mut steps = List::new(alloc);
    steps.add(write_description(alloc, n)?)?;
    add_sources(alloc, &mut steps, n)?;
    steps.add(build_project(alloc)?)?;
    steps.add(write_again(alloc, (n + 1) / 2)?)?;
    steps.add(build_project(alloc)?)?;
    Ok(steps)
}
