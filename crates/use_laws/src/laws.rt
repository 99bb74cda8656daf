//! The laws of what uses leave, as calls that do nothing.
ghost use Rattle.use_laws.specs.Laws.{CutOffLeavesFronts, StaysFresh, UsesInStepLeave, UsesWriteRecords};

/// Uses of tools write the records of those that run, and no other file; and records stand in the store.
pub fn uses_write_records()
    ensures { UsesWriteRecords }
{}

/// What is left of a loading that went on to its end, and of one that was cut off: each tool ran for a front of the uses
/// that run it, no other file than their records changed, and a good store is one.
pub fn loading_leaves_fronts()
    ensures whole { UsesInStepLeave }
    ensures cut { CutOffLeavesFronts }
{}

/// What was fresh or stale in a store stays so through uses of tools, and so do the units that a build over it compiles
/// and loads, and those that it asks the compiler for.
pub fn uses_keep_builds()
    ensures { StaysFresh }
{}
