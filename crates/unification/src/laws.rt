//! The laws of unification and of schemes, so that crates above have them from a call.

ghost use Rattle.unification.specs.Promises.{GivesMostGeneral, DepthChangesNothing, TouchesOwnAlone, LeavesOthers, KeepsFit};
ghost use Rattle.unification.specs.Promises.{CoversDecides, CanonicalKeepsInstances, ClosesTypes};

/// What unification answers is most general; where it answers a fault, nothing makes the two types equal.
#[tactic(auto, using(crate::proofs::Promised::gives_most_general, crate::proofs::Promised::depth_changes_nothing))]
pub fn unification_is_most_general()
    ensures general { GivesMostGeneral }
    ensures depth { DepthChangesNothing }
{}

/// Unification touches no variable but those of its two types, and leaves all other types as they were.
#[tactic(auto, using(crate::proofs::Promised::touches_own_alone, crate::proofs::Promised::leaves_others))]
pub fn unification_touches_its_types_alone()
    ensures own { TouchesOwnAlone }
    ensures others { LeavesOthers }
{}

/// Variables that weren't made stay out of states.
#[tactic(auto, using(crate::proofs::Promised::keeps_fit))]
pub fn states_hold_what_was_made()
    ensures { KeepsFit }
{}

/// Which of two schemes is at least as general is decided, and a scheme's canonical form has its instances.
#[tactic(auto, using(crate::proofs::Promised::covers_decides, crate::proofs::Promised::canonical_keeps_instances))]
pub fn schemes_are_compared()
    ensures covers { CoversDecides }
    ensures canonical { CanonicalKeepsInstances }
{}

/// Closing a type finds exactly the variables that stand in it and aren't kept.
#[tactic(auto, using(crate::proofs::Promised::closes_types))]
pub fn closing_finds_what_is_not_kept()
    ensures { ClosesTypes }
{}
