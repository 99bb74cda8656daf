//! What holds of every sum, whoever reads it.

ghost use Rattle.grammars.specs.Answers.{IsMeasured};
ghost use Rattle.grammars.specs.Laws.{Gives, IsLawful};
ghost use Rattle.grammars.specs.Wider.{KeepsRefusals};
ghost use Rattle.std.specs.Prelude.{◌≤◌};
ghost use Rattle.grammars.specs.Sums.{level};

use crate::laws::{Described, grammars_are_lawful};

/// Stands for the grammar of sums that nest at most so many levels. It has no value.
pub enum Sums<const LIMIT: u32> {}

impl<const LIMIT: u32> Described for Sums<LIMIT> {
    ghost use Rattle.grammars.specs.Sums.{TallShape};
    ghost use Rattle.grammars.specs.declared.toy.token.Token.{Token};

    ghost Lexeme = { Token };

    ghost Value = { TallShape };

    ghost grammar = { (level LIMIT).sum };
}

/// Sums obey the laws of grammars.
pub fn sums_are_lawful<const LIMIT: u32>()
    ensures { IsLawful (level LIMIT).sum }
{
    grammars_are_lawful::<Sums<LIMIT>>()
}

/// The height that a sum has within a limit is that of its tree, and no higher than the limit.
pub fn sums_keep_their_limit(limit: u32)
    ensures { Gives (level limit).sum (IsMeasured limit) }
{}

/// What is refused as a sum under one limit is refused at the same place under each wider one.
pub fn sums_keep_refusals(limit: u32, wider: u32)
    requires { limit ≤ wider }
    ensures { KeepsRefusals (level limit).sum (level wider).sum }
{}
