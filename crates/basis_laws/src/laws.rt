//! The laws, so that crates above have them from a call.

ghost use Rattle.basis_laws.specs.Promises.{UnitsBeginWithTheBasis};

/// The initial basis, with the built-in structures or without them, is fit for a unit's beginning, and so are the basis
/// and what is given in front of it where that is fit by itself; nothing is, over a new table.
#[tactic(auto, using(crate::proofs::Promised::units_begin_with_the_basis))]
pub fn units_begin_with_the_basis()
    ensures { UnitsBeginWithTheBasis }
{}
