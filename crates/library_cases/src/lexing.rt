//! Cases `tokens` and `scan`: a line for each token of a description.

use case_files::{Part, push_parts};
use case_texts::refusal;
use cm_base::{NoMemory, Text};
use cm_lexer::{Point, Token, TokenKind, scan, tokens};
use std::alloc::Global;

/// What a token is, in a word.
fn word_of(kind: TokenKind) -> &'static [u8] {
    match kind {
        TokenKind::Word => b"word",
        TokenKind::Quoted => b"quoted",
        TokenKind::Colon => b"colon",
        TokenKind::Open => b"open",
        TokenKind::Close => b"close",
        TokenKind::Directive => b"directive",
        TokenKind::Rest => b"rest",
    }
}

/// Adds the line of a token: what it is, its bytes from and to, and its place.
fn push_token(alloc: Global, out: &mut Vec<u8>, token: &Token) -> Result<(), NoMemory> {
    let parts = [
        Part::Text(word_of(token.kind)),
        Part::Text(b" "),
        Part::Number(u64::from(token.start)),
        Part::Text(b".."),
        Part::Number(u64::from(token.end)),
        Part::Text(b" at "),
        Part::Number(u64::from(token.line)),
        Part::Text(b":"),
        Part::Number(u64::from(token.col)),
        Part::Text(b"\n"),
    ];
    push_parts(alloc, out, &parts)
}

/// The lines of tokens.
fn lines_of(alloc: Global, found: &[Token]) -> Result<Vec<u8>, NoMemory> {
    let mut out = Vec::new(alloc);
    for token in found {
        push_token(alloc, &mut out, token)?;
    }
    Ok(out)
}

/// The tokens of a description, or its refusal.
pub fn tokens_of(alloc: Global, text: &Text) -> Result<Vec<u8>, NoMemory> {
    let file = Text::from_bytes(alloc, b"a.cm")?;
    match tokens(alloc, &file, text) {
        Ok(found) => lines_of(alloc, found.as_slice()),
        Err(fault) => refusal(alloc, &fault),
    }
}

/// Adds the line of the place where a scan ends early.
fn push_wrong(alloc: Global, out: &mut Vec<u8>, wrong: Point) -> Result<(), NoMemory> {
    let parts = [
        Part::Text(b"wrong "),
        Part::Number(u64::from(wrong.at)),
        Part::Text(b" at "),
        Part::Number(u64::from(wrong.line)),
        Part::Text(b":"),
        Part::Number(u64::from(wrong.col)),
        Part::Text(b"\n"),
    ];
    push_parts(alloc, out, &parts)
}

/// The tokens of a text up to where it is refused, and that place.
pub fn scanned(alloc: Global, text: &Text) -> Result<Vec<u8>, NoMemory> {
    let found = scan(alloc, text)?;
    let mut out = lines_of(alloc, found.tokens.as_slice())?;
    if let Some(wrong) = found.wrong {
        push_wrong(alloc, &mut out, wrong)?;
    }
    Ok(out)
}
