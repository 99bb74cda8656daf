//! The laws of inference, so that crates above have them from a call.

ghost use Rattle.static_semantics.specs.Promises.{TouchesScopeAlone, ClosesByAge, DatatypesMaximiseEquality};

/// Inference touches new variables and those of its scope alone, and gives no others.
#[tactic(auto, using(crate::proofs::Promised::touches_scope_alone))]
pub fn inference_touches_its_scope_alone()
    ensures { TouchesScopeAlone }
{}

/// A `val` may be closed by the age of variables, without a look at the environment.
#[tactic(auto, using(crate::proofs::ByAge::closes_by_age))]
pub fn values_are_closed_by_age()
    ensures { ClosesByAge }
{}

/// The datatypes of a declaration admit equality as far as possible together.
#[tactic(auto, using(crate::proofs::Maximal::datatypes_maximise))]
pub fn datatypes_maximise_equality()
    ensures { DatatypesMaximiseEquality }
{}
