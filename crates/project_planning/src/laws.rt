//! The law of plans over a store, as a call that does nothing.
ghost use Rattle.project_planning.specs.Laws.{PlansAreTheCompilers};

/// Over a good store the plan is the compiler's, with the same first refusal, and the compiler is asked for those
/// sources alone of which no whole binfile of the unit was made.
pub fn plans_are_the_compilers()
    ensures { PlansAreTheCompilers }
{}
