//! The laws, so that crates above have them from a call.

ghost use Rattle.inference_laws.specs.Promises.{MakesOfGiven, KeepsWellFormed, KeepsNames};
ghost use Rattle.inference_laws.specs.Promises.{HangsOnWhatIsSeen, SeesWhatIsPut, BindsNewOrFree, BeginsReady};

/// What inference makes is made of what it is given, and of type names that it numbers one after another.
#[tactic(auto, using(crate::proofs::Promised::makes_of_given))]
pub fn inference_makes_of_what_it_is_given()
    ensures { MakesOfGiven }
{}

/// Where what it is given is well formed, with one arity and equality for each number of a type name, so is what
/// inference makes; its names are those that were there, and those with the numbers from before to after.
/// Names of its entries are those of what it is given.
#[tactic(auto, using(crate::proofs::Promised::keeps_well_formed, crate::proofs::Promised::keeps_names))]
pub fn inference_keeps_what_is_well_formed()
    ensures types { KeepsWellFormed }
    ensures names { KeepsNames }
{}

/// Inference hangs on the environment as it is seen through the state.
#[tactic(auto, using(crate::proofs::Promised::hangs_on_what_is_seen, crate::proofs::PutAlike::sees_what_is_put))]
pub fn inference_hangs_on_what_is_seen()
    ensures hangs { HangsOnWhatIsSeen }
    ensures put { SeesWhatIsPut }
{}

/// Inference binds variables alone that are new or free around, and every other one stays.
#[tactic(auto, using(crate::proofs::Opened::binds_new_or_free, crate::proofs::Opened::begins_ready))]
pub fn inference_binds_new_or_free_variables()
    ensures binds { BindsNewOrFree }
    ensures begins { BeginsReady }
{}
