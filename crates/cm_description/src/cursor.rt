//! The tokens that are left to read.

ghost use Rattle.std.specs.Prelude.{◌≡◌, None, drop};
ghost use Rattle.grammars.specs.Grammar.{head_or};
ghost use Rattle.cm_description.specs.Words.{that, is_word, has_kind, begins_export, begins_member};

use crate::source::{Source, begins_member, has_kind};
use crate::word::WordKind;
use cm_lexer::{Token, TokenKind};

/// The tokens that are left to read.
#[derive(Drop)]
pub(crate) struct Cursor<'a> {
    pub rest: &'a [Token],
}

impl<'a> Cursor<'a> {
    /// The next token, if there is one.
    pub fn peek(&self) -> Option<Token>
        ensures { result ≡ head_or self.now.rest.now None }
    {
        self.rest.first().copied()
    }

    /// The next token, if it is a word that is wanted.
    pub fn word(&self, source: &Source<'_>, wanted: WordKind) -> Option<Token>
        ensures { result ≡ that (is_word wanted source.now.bytes.now) (head_or self.now.rest.now None) }
    {
        let token = self.peek()?;
        if source.is_word(wanted, token) {
            return Some(token);
        }
        None
    }

    /// The next token, if it is of this kind.
    pub fn mark(&self, kind: TokenKind) -> Option<Token>
        ensures { result ≡ that (has_kind kind) (head_or self.now.rest.now None) }
    {
        let token = self.peek()?;
        if has_kind(kind, token) {
            return Some(token);
        }
        None
    }

    /// The next token, if a line of an export list begins with it.
    pub fn export(&self, source: &Source<'_>) -> Option<Token>
        ensures { result ≡ that (begins_export source.now.bytes.now) (head_or self.now.rest.now None) }
    {
        let token = self.peek()?;
        if source.begins_export(token) {
            return Some(token);
        }
        None
    }

    /// The next token, if a line of a member list begins with it.
    pub fn member(&self) -> Option<Token>
        ensures { result ≡ that begins_member (head_or self.now.rest.now None) }
    {
        let token = self.peek()?;
        if begins_member(token) {
            return Some(token);
        }
        None
    }

    /// Takes the next token, if there is one.
    pub fn take(&mut self)
        ensures { self.new.rest.now ≡ drop 1 self.old.rest.now }
    {
        if let Some((_, rest)) = self.rest.split_first() {
            self.rest = rest;
        }
    }
}
