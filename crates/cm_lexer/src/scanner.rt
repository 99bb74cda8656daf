//! Goes through a text, piece by piece.

ghost use Rattle.std.specs.Prelude.{◌≡◌, ◌≢◌, ◌+◌, ◌<◌, ◌≤◌, ◌∷◌, ◌++◌, ◌||◌, ◌==◌, [], IfOk, OnOk, MatchOption, length, take, drop, false, true};
ghost use Rattle.std.specs.List.{list_any};
ghost use Rattle.cm_lexer.specs.Points.{start, after};
ghost use Rattle.cm_lexer.specs.Tokens.{onto, refused, token_at, scan_from, scan_of};

use crate::byte::has_line_feed;
use crate::piece::{Piece, piece_at};
use crate::point::Point;
use crate::token::{Scan, Token, TokenKind};
use cm_base::{List, NoMemory};
use std::alloc::Global;

/// The rest of a text, the point before it, whether no token stands before that on its line, and the tokens found.
#[derive(Drop)]
struct Scanner<'a> {
    rest: &'a [u8],
    point: Point,
    first: bool,
    tokens: List<Token>,
}

impl<'a> Scanner<'a> {
    /// Before a text.
    fn new(alloc: Global, text: &'a [u8]) -> Scanner<'a>
        ensures rest { result.rest.now ≡ text.now }
        ensures point { result.point ≡ start }
        ensures first { result.first ≡ true }
        ensures tokens { result.tokens ≡ [] }
    {
        Scanner {
            rest: text,
            point: Point::start(),
            first: true,
            tokens: List::new(alloc),
        }
    }

    /// Passes bytes that are no token.
    fn pass(&mut self, len: usize) -> Result<(), NoMemory>
        requires { len ≤ length self.old.rest.now }
        ensures rest { OnOk result (self.new.rest.now ≡ drop len self.old.rest.now) }
        ensures point { OnOk result (self.new.point ≡ after self.old.point (take len self.old.rest.now)) }
        ensures first { OnOk result
            (self.new.first ≡ (self.old.first || list_any (λ byte. byte == 10) (take len self.old.rest.now))) }
        ensures tokens { self.new.tokens ≡ self.old.tokens }
    {
        let (passed, rest) = self.rest.split_at(len);
        self.point = self.point.after(passed)?;
        self.first = self.first || has_line_feed(passed);
        self.rest = rest;
        Ok(())
    }

    /// Takes a token.
    fn take(&mut self, kind: TokenKind, len: usize) -> Result<(), NoMemory>
        requires { len ≤ length self.old.rest.now }
        ensures rest { OnOk result (self.new.rest.now ≡ drop len self.old.rest.now) }
        ensures point { OnOk result (self.new.point ≡ after self.old.point (take len self.old.rest.now)) }
        ensures first { OnOk result (self.new.first ≡ false) }
        ensures tokens { OnOk result (self.new.tokens ≡ self.old.tokens ++ token_at kind len self.old.point ∷ []) }
    {
        let (taken, rest) = self.rest.split_at(len);
        let Point {
            at: start,
            line,
            col,
        } = self.point;
        let len = u32::try_from(len).map_err(|_| NoMemory)?;
        let end = start.checked_add(len).ok_or(NoMemory)?;
        self.tokens.add(Token {
            kind,
            start,
            end,
            line,
            col,
        })?;
        self.point = self.point.after(taken)?;
        self.first = false;
        self.rest = rest;
        Ok(())
    }

    /// Goes past what stands next, or answers the point at which the text is refused.
    #[tactic(auto, using(crate::proofs::Steps::steps))]
    fn step(&mut self, byte: u8, bytes: &[u8]) -> Result<Option<Point>, NoMemory>
        requires { self.old.rest.now ≡ byte ∷ bytes.now }
        ensures step { IfOk result (λ wrong. MatchOption wrong
            (onto self.new.tokens (scan_from self.new.first self.new.point self.new.rest.now)
            ≡ onto self.old.tokens (scan_from self.old.first self.old.point self.old.rest.now))
            (λ p. onto self.new.tokens (refused p)
            ≡ onto self.old.tokens (scan_from self.old.first self.old.point self.old.rest.now))) }
        ensures shorter { IfOk result
            (λ wrong. MatchOption wrong (length self.new.rest.now < length self.old.rest.now) (λ _. Unit {0})) }
    {
        match piece_at(self.first, byte, bytes) {
            Piece::Gap(len) => self.pass(len)?,
            Piece::Token(kind, len) => self.take(kind, len)?,
            Piece::Directive(len, more) => {
                self.take(TokenKind::Directive, len)?;
                self.take(TokenKind::Rest, more)?;
            }
            Piece::Wrong(len) => {
                self.pass(len)?;
                return Ok(Some(self.point));
            }
        }
        Ok(None)
    }

    /// Goes to the end of the text, or up to the first place at which it is refused, which is the answer.
    fn run(&mut self) -> Result<Option<Point>, NoMemory>
        ensures { IfOk result (λ wrong. record { tokens = self.new.tokens; wrong = wrong }
            ≡ onto self.old.tokens (scan_from self.old.first self.old.point self.old.rest.now)) }
    {
        while let Some((byte, bytes)) = self.rest.split_first() {
            let wrong = self.step(*byte, bytes)?;
            if wrong.is_some() {
                return Ok(wrong);
            }
        }
        Ok(None)
    }
}

/// The tokens of a text up to its end, or up to the first place at which it is refused.
pub(crate) fn scan(alloc: Global, text: &[u8]) -> Result<Scan, NoMemory>
    ensures { IfOk result (λ scan. scan ≡ scan_of text.now) }
{
    let mut scanner = Scanner::new(alloc, text);
    let wrong = scanner.run()?;
    Ok(Scan {
        tokens: scanner.tokens,
        wrong,
    })
}
