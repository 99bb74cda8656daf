//! The source of a member: it comes from the record of its unit, or of a run of its tool.

ghost use Rattle.std.specs.Prelude.{◌≡◌, ◌≢◌, ◌<◌, ◌≤◌, ℕ, List, Err, IfOk, length};
ghost use Rattle.cm_base.specs.Causes.{HasCause};
ghost use Rattle.cm_base.specs.Files.{Told};
ghost use Rattle.tool_records.specs.Stored.{stored_record};
ghost use Rattle.tool_deriving.specs.Deriving.{tool_use, tool_state, record_with, served, stored_output, IsSmallUse, DerivesBy, RunsOnce};
ghost use Rattle.tool_deriving.specs.Toolboxes.{OfOne};

use crate::fault::DeriveFault;
use crate::toolbox::Toolbox;
use bin_formats::ToolRecord;
use cm_base::{Folder, NoMemory, Text, Tool};
use std::alloc::Global;
use tool_records::{get_record, put_record};

// The output of a record.
fn output_of(run: ToolRecord) -> Text
    ensures { result ≡ run.output }
{
    let ToolRecord {
        unit: _unit,
        class: _class,
        rule: _rule,
        input: _input,
        output,
    } = run;
    output
}

// The output of a record, where it is of this class, rule and input.
fn served(stored: Option<ToolRecord>, class: &Text, rule: &Text, input: &Text) -> Option<Text>
    ensures { (unit : List ℕ) → result ≡ served (tool_use class.now rule.now unit input.now) stored }
{
    match stored {
        Some(run) => {
            if run.class == *class && run.rule == *rule && run.input == *input {
                Some(output_of(run))
            } else {
                None
            }
        }
        None => None,
    }
}

// What the store has for a use.
#[tactic(auto, unfolding(crate::specs::Deriving::stored_output))]
fn find_output<F: Folder>(
    alloc: Global,
    folder: &mut F,
    class: &Text,
    rule: &Text,
    unit: &Text,
    input: &Text,
) -> Result<Option<Text>, DeriveFault>
    ensures cause { HasCause (F.faults folder.old) (F.faults folder.new) (result ≡ Err DeriveFault.Folder) }
    ensures same { F.holds folder.new ≡ F.holds folder.old }
    ensures tool { result ≢ Err DeriveFault.Tool }
    ensures found { Told (F.holds folder.old) (λ files. IfOk result (λ found.
        found ≡ stored_output files (tool_use class.now rule.now unit.now input.now))) }
{
    let stored = get_record(alloc, folder, unit)?;
    Ok(served(stored, class, rule, input))
}

// The record of a use with an output.
fn record_of(
    class: &Text,
    rule: &Text,
    unit: &Text,
    input: &Text,
    output: Text,
) -> Result<ToolRecord, NoMemory>
    ensures { IfOk result (λ run. run ≡ record_with (tool_use class.now rule.now unit.now input.now) output) }
{
    Ok(ToolRecord {
        unit: unit.copy()?,
        class: class.copy()?,
        rule: rule.copy()?,
        input: input.copy()?,
        output,
    })
}

// Runs a tool, and puts the record of its run.
#[tactic(auto, using(crate::proofs::Runs::run_fits), unfolding(crate::specs::Deriving::text_of_use))]
fn run_tool<F: Folder, T: Tool>(
    alloc: Global,
    folder: &mut F,
    tool: &mut T,
    rule: &Text,
    unit: &Text,
    input: &Text,
) -> Result<Text, DeriveFault>
    requires rule { rule.now ≡ T.rule tool.old }
    requires small { IsSmallUse (tool_use (T.class tool.old) (T.rule tool.old) unit.now input.now) }
    ensures folder { HasCause (F.faults folder.old) (F.faults folder.new) (result ≡ Err DeriveFault.Folder) }
    ensures tool { HasCause (T.faults tool.old) (T.faults tool.new) (result ≡ Err DeriveFault.Tool) }
    ensures class { T.class tool.new ≡ T.class tool.old }
    ensures same_rule { T.rule tool.new ≡ T.rule tool.old }
    ensures once { RunsOnce (tool_use (T.class tool.old) (T.rule tool.old) unit.now input.now) result
        (F.holds folder.old) (F.holds folder.new) (T.ran tool.old) (T.ran tool.new) }
{
    let output = tool.make(alloc, unit, input)?;
    let run = record_of(tool.class(), rule, unit, input, output)?;
    put_record(alloc, folder, &run)?;
    Ok(output_of(run))
}

// The source of a unit, by one tool.
fn derive_by<F: Folder, T: Tool>(
    alloc: Global,
    folder: &mut F,
    tool: &mut T,
    unit: &Text,
    input: &Text,
) -> Result<Text, DeriveFault>
    requires unit { length unit.now ≤ 1048576 }
    requires input { length input.now ≤ 1048576 }
    ensures folder { HasCause (F.faults folder.old) (F.faults folder.new) (result ≡ Err DeriveFault.Folder) }
    ensures tool { DerivesBy (tool_state (T.class tool.old) (T.rule tool.old) (T.ran tool.old) (T.faults tool.old))
        (tool_state (T.class tool.new) (T.rule tool.new) (T.ran tool.new) (T.faults tool.new)) unit.now input.now result
        (F.holds folder.old) (F.holds folder.new) }
{
    let rule = tool.rule(alloc)?;
    let stored = find_output(alloc, folder, tool.class(), &rule, unit, input)?;
    match stored {
        Some(output) => Ok(output),
        None => run_tool(alloc, folder, tool, &rule, unit, input),
    }
}

/// The source of a unit of a tool's class: from its record, or by one run of the tool, after which the record is
/// written. `class` is the place of the tool.
pub fn derive<F: Folder, T: Tool>(
    alloc: Global,
    folder: &mut F,
    tools: &mut Toolbox<T>,
    class: u32,
    unit: &Text,
    input: &Text,
) -> Result<Text, DeriveFault>
    requires class { class < length tools.old }
    requires unit { length unit.now ≤ 1048576 }
    requires input { length input.now ≤ 1048576 }
    ensures folder { HasCause (F.faults folder.old) (F.faults folder.new) (result ≡ Err DeriveFault.Folder) }
    ensures tool { OfOne class tools.old tools.new (λ old new.
        DerivesBy (tool_state (T.class old) (T.rule old) (T.ran old) (T.faults old))
        (tool_state (T.class new) (T.rule new) (T.ran new) (T.faults new)) unit.now input.now result
        (F.holds folder.old) (F.holds folder.new)) }
{
    derive_by(alloc, folder, &mut tools.tools[class as usize], unit, input)
}
