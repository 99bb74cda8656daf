//! What the tokens of a description stand for.

ghost use Rattle.std.specs.Prelude.{◌≡◌, IfOk};
ghost use Rattle.cm_lexer.specs.Spelling.{slice_of};
ghost use Rattle.cm_description.specs.Words.{place, is_word, has_kind, is_path, path_of, space_at, directive_at, begins_export, begins_member};

use crate::bytes::{from, inside, upto};
use crate::directive::Directive;
use crate::word::{WordKind, allows, directive_of, space_of};
use cm_base::{Namespace, NoMemory, Place, Text};
use cm_lexer::{Token, TokenKind};

/// A description's file, and the bytes of its text.
#[derive(Drop)]
pub(crate) struct Source<'a> {
    pub file: &'a Text,
    pub bytes: &'a [u8],
}

/// Whether a token is of this kind.
pub(crate) fn has_kind(kind: TokenKind, token: Token) -> bool
    ensures { result ≡ has_kind kind token }
{
    token.kind == kind
}

/// Whether a member begins with a token.
pub(crate) fn is_path(token: Token) -> bool
    ensures { result ≡ is_path token }
{
    has_kind(TokenKind::Word, token) || has_kind(TokenKind::Quoted, token)
}

/// Whether a line of a member list begins with a token.
pub(crate) fn begins_member(token: Token) -> bool
    ensures { result ≡ begins_member token }
{
    is_path(token) || has_kind(TokenKind::Directive, token)
}

impl<'a> Source<'a> {
    /// The bytes of a token.
    pub fn slice(&self, token: Token) -> &'a [u8]
        ensures { result.now ≡ slice_of self.now.bytes.now token }
    {
        let len = token.end.saturating_sub(token.start);
        upto(from(self.bytes, token.start as usize), len as usize)
    }

    /// Where a token stands.
    pub fn place(&self, token: Token) -> Result<Place, NoMemory>
        ensures { IfOk result (λ at. at ≡ place self.now.file.now token) }
    {
        Ok(Place {
            file: self.file.copy()?,
            line: token.line,
            col: token.col,
        })
    }

    /// Whether a token is a word that is wanted.
    pub fn is_word(&self, wanted: WordKind, token: Token) -> bool
        ensures { result ≡ is_word wanted self.now.bytes.now token }
    {
        match token.kind {
            TokenKind::Word => allows(wanted, self.slice(token)),
            _ => false,
        }
    }

    /// The name space that a token stands for, if it does.
    pub fn space_at(&self, token: Token) -> Option<Namespace>
        ensures { result ≡ space_at self.now.bytes.now token }
    {
        match token.kind {
            TokenKind::Word => space_of(self.slice(token)),
            _ => None,
        }
    }

    /// Whether a line of an export list begins with a token.
    pub fn begins_export(&self, token: Token) -> bool
        ensures { result ≡ begins_export self.now.bytes.now token }
    {
        self.space_at(token).is_some() || has_kind(TokenKind::Directive, token)
    }

    /// The path that a token is, without its quotes.
    pub fn path(&self, token: Token) -> &'a [u8]
        ensures { result.now ≡ path_of self.now.bytes.now token }
    {
        match token.kind {
            TokenKind::Quoted => inside(self.slice(token)),
            _ => self.slice(token),
        }
    }

    /// The directive that a token is.
    pub fn directive_at(&self, token: Token) -> Directive
        ensures { result ≡ directive_at self.now.bytes.now token }
    {
        directive_of(from(self.slice(token), 1))
    }
}
