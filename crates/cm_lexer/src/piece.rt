//! What stands at one place of a text: no token, a token, or nothing that may stand there.

ghost use Rattle.std.specs.Prelude.{◌≡◌, ◌+◌, ◌^◌, ◌<◌, ◌≤◌, length, drop, IfSome};
ghost use Rattle.cm_lexer.specs.Pieces.{longer, comment_len, comment_piece, after_open, after_quote, is_directive, after_sign, piece_at, FitsIn};

use crate::byte::{is_blank, is_word_byte, line_len, quoted_len, word_len};
use crate::token::TokenKind;

/// What stands at one place of a text.
#[derive(Clone, Copy, Debug, PartialEq, Eq)]
pub(crate) enum Piece {
    /// So many bytes that are no token: a blank or a comment.
    Gap(usize),
    /// A token of so many bytes.
    Token(TokenKind, usize),
    /// A directive of so many bytes, and the number of those behind it on its line.
    Directive(usize, usize),
    /// Nothing that may stand here: the text is refused so many bytes further on.
    Wrong(usize),
}

/// Goes past a mark, or past a byte that is none, inside so many comments: the number of those that are open
/// behind it, and the number of its bytes.
fn pass_mark(depth: usize, bytes: &[u8]) -> (usize, usize)
    requires inside { 0 < depth }
    requires some { 0 < length bytes.now }
    requires room { depth + length bytes.now ≤ 2 ^ 63 }
    ensures len { comment_len depth bytes.now
        ≡ longer result.1 (comment_len result.0 (drop result.1 bytes.now)) }
    ensures some { 1 ≤ result.1 }
    ensures within { result.1 ≤ length bytes.now }
    ensures room { result.0 < depth + result.1 }
{
    if bytes.starts_with(b"(*") {
        (depth + 1, 2)
    } else if bytes.starts_with(b"*)") {
        (depth - 1, 2)
    } else {
        (depth, 1)
    }
}

/// The number of bytes up to the end of one open comment, if it ends.
fn comment_len(bytes: &[u8]) -> Option<usize>
    ensures len { result ≡ comment_len 1 bytes.now }
    ensures within { IfSome result (λ len. len ≤ length bytes.now) }
{
    let mut depth = 1usize;
    let mut rest = bytes;
    while depth > 0 {
        if rest.is_empty() {
            return None;
        }
        let (open, len) = pass_mark(depth, rest);
        let (_passed, after) = rest.split_at(len);
        depth = open;
        rest = after;
    }
    Some(bytes.len() - rest.len())
}

/// What an opening bracket begins, before these bytes.
fn after_open(bytes: &[u8]) -> Piece
    ensures { result ≡ after_open bytes.now }
{
    match bytes {
        [b'*', inside @ ..] => match comment_len(inside) {
            Some(len) => Piece::Gap(len + 2),
            None => Piece::Wrong(0),
        },
        _ => Piece::Token(TokenKind::Open, 1),
    }
}

/// What a quote begins, before these bytes.
fn after_quote(bytes: &[u8]) -> Piece
    ensures { result ≡ after_quote bytes.now }
{
    let len = quoted_len(bytes);
    match bytes.get(len) {
        Some(b'"') => Piece::Token(TokenKind::Quoted, len + 2),
        Some(_) => Piece::Wrong(len + 1),
        None => Piece::Wrong(0),
    }
}

/// Whether a word is that of a directive, without its sign.
#[tactic(auto, unfolding(crate::specs::Pieces::is_directive))]
fn is_directive(word: &[u8]) -> bool
    ensures { result ≡ is_directive word.now }
{
    word == b"if".as_slice()
        || word == b"elif".as_slice()
        || word == b"else".as_slice()
        || word == b"endif".as_slice()
        || word == b"error".as_slice()
}

/// What a `#` begins, before these bytes.
fn after_sign(first: bool, bytes: &[u8]) -> Piece
    ensures { result ≡ after_sign first bytes.now }
{
    let (word, rest) = bytes.split_at(word_len(bytes));
    if first && is_directive(word) {
        Piece::Directive(word.len() + 1, line_len(rest))
    } else {
        Piece::Wrong(0)
    }
}

/// What a byte begins, before these; `first` says that no token stands before it on its line.
#[tactic(auto, using(crate::proofs::Fitting::piece_fits))]
pub(crate) fn piece_at(first: bool, byte: u8, bytes: &[u8]) -> Piece
    ensures piece { result ≡ piece_at first byte bytes.now }
    ensures fits { FitsIn (1 + length bytes.now) result }
{
    if is_blank(byte) {
        return Piece::Gap(1);
    }
    if is_word_byte(byte) {
        return Piece::Token(TokenKind::Word, word_len(bytes) + 1);
    }
    match byte {
        b'"' => after_quote(bytes),
        b'#' => after_sign(first, bytes),
        b'(' => after_open(bytes),
        b')' => Piece::Token(TokenKind::Close, 1),
        b':' => Piece::Token(TokenKind::Colon, 1),
        _ => Piece::Wrong(0),
    }
}
