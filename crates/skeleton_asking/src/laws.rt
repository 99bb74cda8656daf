//! The laws of skeletons over a store, as calls that do nothing.
ghost use Rattle.skeleton_asking.specs.Laws.{AllAreAsked, StoredAreTheCompilers};

/// Over a good store the skeletons are the compiler's, with the same first refusal. It is asked for those sources alone
/// of which no whole binfile of the unit was made, up to the one that it refuses.
pub fn stored_are_the_compilers()
    ensures { StoredAreTheCompilers }
{}

/// Where no store was begun the compiler is asked for every source, up to the one that it refuses.
pub fn all_are_asked()
    ensures { AllAreAsked }
{}
