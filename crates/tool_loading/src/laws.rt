//! The laws of loading with tools, as calls that do nothing.

ghost use Rattle.tool_loading.specs.Laws.{LoadingWithoutTools, LoadingReadsTheProject, LoadingKnowsNoStore, LoadsOverTrueRecords, LoadingIsWhole};

/// Groups are loaded to any depth: more levels than there are change nothing.
pub fn loading_goes_to_any_depth()
    ensures { LoadingIsWhole }
{}

/// Without tools the project of a folder is what loading gives that knows none, and no use is made.
pub fn loading_without_tools()
    ensures { LoadingWithoutTools }
{}

/// Loading reads files of the project alone: over two folders with the same files outside the store it gives the same
/// project or refusal and the same uses of tools; so it does over a folder and over its project part.
pub fn loading_knows_no_store()
    ensures reads { LoadingReadsTheProject }
    ensures storeless { LoadingKnowsNoStore }
{}

/// From true records, loading over the store as it stands gives what the tools' rules give that know no store, and leaves
/// a record for each use that ran.
pub fn loading_over_true_records()
    ensures { LoadsOverTrueRecords }
{}
