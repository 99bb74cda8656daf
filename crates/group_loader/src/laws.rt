//! The law of runs, as a call that does nothing.

ghost use Rattle.group_loader.specs.Laws.{ToolsRunByClass};

/// Of uses that ran their tools, the tool of a class ran those of its class: so the counts that `load` leaves tell of
/// each tool of a box.
pub fn tools_run_by_class()
    ensures { ToolsRunByClass }
{}
