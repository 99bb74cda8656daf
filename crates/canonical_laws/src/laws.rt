//! The laws, so that crates above have them from a call.

ghost use Rattle.canonical_laws.specs.Promises.{CanonicalIsCanonical, NumbersChangeNothing};

/// The canonical form of a canonical form is itself.
#[tactic(auto, using(crate::proofs::Again::canonical_again))]
pub fn canonical_is_canonical()
    ensures { CanonicalIsCanonical }
{}

/// Whatever numbers the names of a unit and of binders had, and the variables of schemes, the canonical form is the
/// same.
#[tactic(auto, using(crate::proofs::Promised::numbers_change_nothing))]
pub fn numbers_change_nothing()
    ensures { NumbersChangeNothing }
{}
