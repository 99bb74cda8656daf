//! One type for the tools that come with the program.

use crate::embed::Embed;
use crate::literate::Literate;
use crate::prelude::Prelude;
use cm_base::{NoMemory, Text, Tool, ToolFault};
use std::alloc::Global;

/// A tool that comes with the program.
#[derive(Debug, Drop)]
pub enum BundledTool {
    Embed(Embed),
    Literate(Literate),
    Prelude(Prelude),
}

impl Tool for BundledTool {
    ghost use Rattle.bundled_tools.specs.Bundled.{class_of, rule_of, ran_of};

    ghost class = { class_of };

    ghost rule = { rule_of };

    ghost ran = { ran_of };

    ghost faults = { λ tool. 0 };

    fn class(&self) -> &Text {
        match self {
            BundledTool::Embed(tool) => tool.class(),
            BundledTool::Literate(tool) => tool.class(),
            BundledTool::Prelude(tool) => tool.class(),
        }
    }

    fn rule(&self, alloc: Global) -> Result<Text, NoMemory> {
        match self {
            BundledTool::Embed(tool) => tool.rule(alloc),
            BundledTool::Literate(tool) => tool.rule(alloc),
            BundledTool::Prelude(tool) => tool.rule(alloc),
        }
    }

    fn ran(&self) -> u64 {
        match self {
            BundledTool::Embed(tool) => tool.ran(),
            BundledTool::Literate(tool) => tool.ran(),
            BundledTool::Prelude(tool) => tool.ran(),
        }
    }

    fn make(&mut self, alloc: Global, unit: &Text, input: &Text) -> Result<Text, ToolFault> {
        match self {
            BundledTool::Embed(tool) => tool.make(alloc, unit, input),
            BundledTool::Literate(tool) => tool.make(alloc, unit, input),
            BundledTool::Prelude(tool) => tool.make(alloc, unit, input),
        }
    }
}
