//! The law, so that crates above have it from a call.

ghost use Rattle.functor_laws.specs.Promises.{FunctorsTakeFromParameters};

/// Those of the names that a functor binds for its parameter that stand in its result stand in the parameter.
#[tactic(auto, using(crate::proofs::Units::functors_take_from_parameters))]
pub fn functors_take_from_their_parameters()
    ensures { FunctorsTakeFromParameters }
{}
