//! A tool for cases: one of the program's, of which one run fails.

ghost use Rattle.std.specs.Prelude.{◌≤◌, length};

use bundled_tools::BundledTool;
use cm_base::{NoMemory, Text, Tool, ToolFault};
use std::alloc::Global;

/// A tool whose run of a number fails, counted from 1; the number 0 is none. It may have another class than the one that
/// it is made of.
#[derive(Drop)]
pub struct CaseTool {
    pub tool: BundledTool,
    pub class: Text,
    pub failing: u64,
    pub ran: u64,
    pub faults: u64,
    ghost short: { length class ≤ 1048581 },
}

impl Tool for CaseTool {
    ghost use Rattle.bundled_tools.specs.Bundled.{rule_of};

    ghost class = { λ one. one.class };

    ghost rule = { λ one. rule_of one.tool };

    ghost ran = { λ one. one.ran };

    ghost faults = { λ one. one.faults };

    fn class(&self) -> &Text {
        &self.class
    }

    fn rule(&self, alloc: Global) -> Result<Text, NoMemory> {
        self.tool.rule(alloc)
    }

    fn ran(&self) -> u64 {
        self.ran
    }

    fn make(&mut self, alloc: Global, unit: &Text, input: &Text) -> Result<Text, ToolFault> {
        self.ran = self.ran.saturating_add(1);
        if self.ran == self.failing {
            self.faults = self.faults.saturating_add(1);
            return Err(ToolFault::Failed);
        }
        self.tool.make(alloc, unit, input)
    }
}
