//! The laws, so that crates above have them from a call.

ghost use Rattle.level_laws.specs.Promises.{TypesHaveTheirLevels, PatternsHaveTheirLevels, ExpressionsHaveTheirLevels, UnitsHaveTheirLevels, UnitsNestAtMost128};

/// The height that is read of a type is the number of its levels, and these are no more than it may nest.
#[tactic(auto, using(crate::proofs::TyLevels::types_have_levels))]
pub fn types_have_their_levels()
    ensures { TypesHaveTheirLevels }
{}

/// The same of patterns, whatever is infix where they stand.
#[tactic(auto, using(crate::proofs::PatLevels::patterns_have_levels))]
pub fn patterns_have_their_levels()
    ensures { PatternsHaveTheirLevels }
{}

/// The same of expressions, with the declarations in them.
#[tactic(auto, using(crate::proofs::DecLevels::expressions_have_levels))]
pub fn expressions_have_their_levels()
    ensures { ExpressionsHaveTheirLevels }
{}

/// The same of the declarations of a unit, which may nest 128 levels.
#[tactic(auto, using(crate::proofs::UnitLevels::units_have_levels))]
pub fn units_have_their_levels()
    ensures { UnitsHaveTheirLevels }
{}

/// A text that is a unit nests at most 128 levels.
pub fn units_nest_at_most_128()
    ensures { UnitsNestAtMost128 }
{}
