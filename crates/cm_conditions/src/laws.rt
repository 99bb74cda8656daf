//! What holds of conditions as texts, whoever reads them.

ghost use Rattle.grammars.specs.Laws.{IsLawful};
ghost use Rattle.cm_conditions.specs.Grammar.{condition};
ghost use Rattle.cm_conditions.specs.Nesting.{EachNests, NestsInOneWay};

use grammars::{Described, grammars_are_lawful};

/// Stands for the grammar of conditions that open at most so many parentheses at once. It has no value.
pub enum Conditions<const LIMIT: u32> {}

impl<const LIMIT: u32> Described for Conditions<LIMIT> {
    ghost use Rattle.cm_conditions.specs.declared.cond.Cond.{Cond};
    ghost use Rattle.cm_conditions.specs.declared.lexeme.Lexeme.{Lexeme};

    ghost Lexeme = { Lexeme };

    ghost Value = { Cond };

    ghost grammar = { condition LIMIT };
}

/// Conditions obey the laws of grammars. So the same lexemes are one condition at most, and each text is one, or is
/// refused or too deep at one place.
pub fn conditions_are_lawful<const LIMIT: u32>()
    ensures { IsLawful (condition LIMIT) }
{
    grammars_are_lawful::<Conditions<LIMIT>>()
}

/// Each list of lines nests, and in one way. So what it chooses is one answer.
#[tactic(auto, using(crate::proofs::NestsOnce::each_nests))]
pub fn lines_nest_in_one_way()
    ensures each { EachNests }
    ensures one { NestsInOneWay }
{}
