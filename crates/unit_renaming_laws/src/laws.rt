//! The laws, so that crates above have them from a call.

ghost use Rattle.unit_renaming_laws.specs.Promises.{SignaturesMove, MatchingMoves, UnitsMove, UnitsBeginAnywhere};

/// Which numbers the variables of a table have changes no signature.
#[tactic(auto, using(crate::proofs::Promised::signatures_move))]
pub fn signatures_move_with_variables()
    ensures { SignaturesMove }
{}

/// Which numbers the variables of a table have changes no matching.
#[tactic(auto, using(crate::proofs::Promised::matching_moves))]
pub fn matching_moves_with_variables()
    ensures { MatchingMoves }
{}

/// Which numbers the variables of a table have changes no structure expression and no unit.
#[tactic(auto, using(crate::proofs::Promised::units_move))]
pub fn units_move_with_variables()
    ensures { UnitsMove }
{}

/// Over what holds no variables, what a table holds of earlier units changes no unit.
#[tactic(auto, using(crate::proofs::Promised::units_begin_anywhere))]
pub fn units_begin_anywhere()
    ensures { UnitsBeginAnywhere }
{}
