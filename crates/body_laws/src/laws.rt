//! The law, so that crates above have it from a call.

ghost use Rattle.body_laws.specs.Promises.{BodiesAreSequences};

/// In the bare unit of a unit, what stands in a `struct`, a `sig` or a `let`, or on a side of a `local`, is a sequence.
pub fn bodies_are_sequences()
    ensures { BodiesAreSequences }
{}
