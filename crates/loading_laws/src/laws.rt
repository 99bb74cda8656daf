//! The laws of what loading reads, as calls that do nothing.

ghost use Rattle.loading_laws.specs.Laws.{AnchorsAreBindings, LoadingGoesByNames, NamesLieOutsideTheStore, LoadingReadsTheProject, LoadingKnowsNoStore};

/// The names that loading goes by are names of files outside the store: that of ROOT, those of members, and the frozen
/// files beside them.
pub fn names_lie_outside_the_store()
    ensures anchors { AnchorsAreBindings }
    ensures names { LoadingGoesByNames }
    ensures outside { NamesLieOutsideTheStore }
{}

/// Loading reads files of the project alone: over two folders with the same files outside the store it gives the same
/// anchors and the same project or refusal; so it does over a folder and over its project part, which has no store.
pub fn loading_reads_the_project()
    ensures reads { LoadingReadsTheProject }
    ensures storeless { LoadingKnowsNoStore }
{}
