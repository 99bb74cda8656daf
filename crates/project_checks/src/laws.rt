//! The law of owners, as a call that does nothing.

ghost use Rattle.project_checks.specs.Owners.{OwnersAreThoseAbove};

/// ROOT and each library own themselves, and any other group has the owners of all groups that have it as a member.
#[tactic(auto, using(crate::proofs::Above::owners_above))]
pub fn owners_are_those_above()
    ensures { OwnersAreThoseAbove }
{}
