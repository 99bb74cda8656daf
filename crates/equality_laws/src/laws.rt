//! The laws, so that crates above have them from a call.

ghost use Rattle.equality_laws.specs.Promises.{ArgumentsSayWhatTheyNeed, GreatestChoicesAreTaken};

/// A type admits equality under a choice of new ones where nothing in it stands against it and all new ones that it
/// holds outside `ref` do.
#[tactic(auto, using(crate::proofs::Needing::arguments_say))]
pub fn arguments_say_what_they_need()
    ensures { ArgumentsSayWhatTheyNeed }
{}

/// The greatest choice by what each type of a declaration is barred by and holds is the one that the definition takes.
#[tactic(auto, using(crate::proofs::Taking::greatest_taken))]
pub fn greatest_choices_are_taken()
    ensures { GreatestChoicesAreTaken }
{}
