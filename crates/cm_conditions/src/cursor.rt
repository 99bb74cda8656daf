//! The lexemes that are left to read.

ghost use Rattle.std.specs.Prelude.{◌≡◌, None, drop, option_and_then, true};
ghost use Rattle.std.specs.Option.{option_copied};
ghost use Rattle.grammars.specs.Grammar.{begins, head_or};
ghost use Rattle.cm_conditions.specs.Grammar.{operator_of, comparison_of, is_paren, is_word, word_of, is_not, is_name};

use crate::lexeme::{Lexeme, Mark, Operator, Strength};
use cm_base::Text;

/// The lexemes that are left to read.
#[derive(Drop)]
pub(crate) struct Cursor<'a> {
    pub rest: &'a [Lexeme],
}

impl<'a> Cursor<'a> {
    /// The next lexeme, if there is one.
    pub fn peek(&self) -> Option<&'a Lexeme>
        ensures { option_copied result ≡ head_or self.now.rest.now None }
    {
        self.rest.first()
    }

    /// The operator of this strength that stands next, if one does.
    pub fn operator(&self, strength: Strength) -> Option<Operator>
        ensures { result ≡ option_and_then (operator_of strength) (head_or self.now.rest.now None) }
    {
        self.peek()?.operator(strength)
    }

    /// The comparison that stands next, if one does.
    pub fn comparison(&self) -> Option<Operator>
        ensures { result ≡ option_and_then comparison_of (head_or self.now.rest.now None) }
    {
        self.peek()?.comparison()
    }

    /// Whether this parenthesis stands next.
    pub fn sees(&self, mark: Mark) -> bool
        ensures { result ≡ begins (is_paren mark) (head_or self.now.rest.now None) }
    {
        match self.peek() {
            Some(lexeme) => lexeme.is_paren(mark),
            None => false,
        }
    }

    /// Whether `not` stands next.
    pub fn sees_not(&self) -> bool
        ensures { result ≡ begins (is_word is_not) (head_or self.now.rest.now None) }
    {
        match self.peek() {
            Some(lexeme) => lexeme.is_not(),
            None => false,
        }
    }

    /// The name of conditions that stands next, if one does.
    pub fn name(&self) -> Option<&'a Text>
        ensures { option_copied result ≡ option_and_then (word_of is_name) (head_or self.now.rest.now None) }
    {
        self.peek()?.name()
    }

    /// The word that stands next, if one does.
    pub fn word(&self) -> Option<&'a Text>
        ensures { option_copied result ≡ option_and_then (word_of (λ _. true)) (head_or self.now.rest.now None) }
    {
        self.peek()?.word()
    }

    /// Takes the next lexeme, if there is one.
    pub fn take(&mut self)
        ensures { self.new.rest.now ≡ drop 1 self.old.rest.now }
    {
        if let Some((_, rest)) = self.rest.split_first() {
            self.rest = rest;
        }
    }
}
