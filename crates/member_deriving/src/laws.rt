//! The laws of members' uses of tools, as calls that do nothing.
ghost use Rattle.member_deriving.specs.Laws.{BuiltInHaveNoTool, SourcesOverTrueRecords, UsesInTurn, UsesKeepStoresGood};

/// The classes of sources and of descriptions have no tool, whatever the box has.
pub fn built_in_classes_have_no_tool()
    ensures { BuiltInHaveNoTool }
{}

/// Where the records of a store are true, a member's source is the same over it as by the tools' rules alone, and so are
/// the uses and what they leave; and the records are true then.
pub fn true_records_give_sources()
    ensures { SourcesOverTrueRecords }
{}

/// What uses leave and which of them run, one list of uses behind another; and a good store stays good through them.
pub fn uses_in_turn()
    ensures turn { UsesInTurn }
    ensures good { UsesKeepStoresGood }
{}
