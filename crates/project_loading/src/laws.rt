//! The law of loading, as a call that does nothing.

ghost use Rattle.project_loading.specs.Projects.{LoadingIsWhole};

/// Groups are loaded to any depth: more levels than there are change nothing.
#[tactic(auto, using(crate::proofs::Levels::loading_whole))]
pub fn loading_is_whole()
    ensures { LoadingIsWhole }
{}
