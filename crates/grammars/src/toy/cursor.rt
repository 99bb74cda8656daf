//! The tokens that are left to read.

ghost use Rattle.std.specs.Prelude.{◌≡◌, None, drop, option_and_then};
ghost use Rattle.grammars.specs.Grammar.{head_or};
ghost use Rattle.grammars.specs.Shape.{operator_of};

use super::token::{Strength, Token};
use super::tree::Operator;

/// The tokens that are left to read.
#[derive(Drop)]
pub struct Cursor<'a> {
    pub rest: &'a [Token],
}

impl Cursor<'_> {
    /// The next token, if there is one.
    pub fn peek(&self) -> Option<Token>
        ensures { result ≡ head_or self.now.rest.now None }
    {
        self.rest.first().copied()
    }

    /// The operator of this strength that stands next, if one does.
    pub fn operator(&self, strength: Strength) -> Option<Operator>
        ensures { result ≡ option_and_then (operator_of strength) (head_or self.now.rest.now None) }
    {
        self.peek()?.operator(strength)
    }

    /// Takes the next token, if there is one.
    pub fn take(&mut self)
        ensures { self.new.rest.now ≡ drop 1 self.old.rest.now }
    {
        if let Some((_, rest)) = self.rest.split_first() {
            self.rest = rest;
        }
    }
}
