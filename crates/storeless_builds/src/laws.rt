//! That a plain build knows no store, as a call that does nothing.

ghost use Rattle.storeless_builds.specs.Laws.{BuildsLeaveAlike, BuildReadsTheProject, BuildKnowsNoStore};

/// Over two folders with the same files outside the store the same units are planned, or the same is refused first; a
/// plain build of them leaves the same binfile and the same interface file of each unit that is done, and the same at
/// each path where both folders had the same. So it does over a folder and over its project part, which has no store.
pub fn a_build_knows_no_store()
    ensures leaves { BuildsLeaveAlike }
    ensures reads { BuildReadsTheProject }
    ensures storeless { BuildKnowsNoStore }
{}
