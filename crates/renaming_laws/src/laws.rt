//! The laws, so that crates above have them from a call.

ghost use Rattle.renaming_laws.specs.Promises.{InferenceMoves, BeginsAnywhere, GeneralityMoves};

/// Which numbers the variables of a table have changes no inference.
#[tactic(auto, using(crate::proofs::Promised::inference_moves))]
pub fn inference_moves_with_its_variables()
    ensures { InferenceMoves }
{}

/// In an environment without variables, what a table holds of earlier ones changes no inference.
#[tactic(auto, using(crate::proofs::Beginning::begins_anywhere))]
pub fn inference_begins_anywhere()
    ensures { BeginsAnywhere }
{}

/// Which of two schemes is at least as general doesn't hang on the numbers of variables.
#[tactic(auto, using(crate::proofs::Generality::generality_moves))]
pub fn generality_moves_with_its_variables()
    ensures { GeneralityMoves }
{}
