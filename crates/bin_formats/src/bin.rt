//! What the store keeps of a unit, and of a tool's run.

use cm_base::{Import, List, Options, Pid, Skeleton, Text};

/// All that a build leaves of a source unit, beside its interface.
#[derive(Debug, Drop)]
pub struct Bin {
    pub unit: Text,
    pub options: Options,
    pub source: Text,
    pub skeleton: Skeleton,
    pub imports: List<Import>,
    pub interface: Pid,
    pub code: Text,
}

/// What a tool made of an input, by which rule.
#[derive(Debug, Drop)]
pub struct ToolRecord {
    pub unit: Text,
    pub class: Text,
    pub rule: Text,
    pub input: Text,
    pub output: Text,
}
