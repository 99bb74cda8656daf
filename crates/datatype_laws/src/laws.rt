//! The laws, so that crates above have them from a call.

ghost use Rattle.datatype_laws.specs.Promises.{DatatypesHaveDerivations, TypesStayBelow};

/// Datatypes that inference accepts have a derivation, in which the types of the declaration admit equality as far as
/// possible from the start. The Definition of Standard ML (Revised), rules 17, 28 and 29.
#[tactic(auto, using(crate::proofs::Datatypes::datatypes_have_derivations))]
pub fn datatypes_have_derivations()
    ensures { DatatypesHaveDerivations }
{}

/// The unit's type names in the types that a declaration makes have numbers below the next one.
#[tactic(auto, using(crate::proofs::Below::types_stay_below))]
pub fn types_stay_below()
    ensures { TypesStayBelow }
{}
