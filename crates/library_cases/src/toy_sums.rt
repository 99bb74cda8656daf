//! Cases `sum`: what the reader of the toy grammar answers to a text of one byte a token.

use case_files::{Case, CaseFault, number_of};
use case_texts::line;
use cm_base::{NoMemory, Text};
use grammars::toy::{Token, read_sum};
use std::alloc::Global;

/// The token that a byte stands for.
fn token_of(byte: u8) -> Token {
    match byte {
        b'0'..=b'9' => Token::Number((byte - b'0') as u32),
        b'+' => Token::Plus,
        b'-' => Token::Minus,
        b'*' => Token::Times,
        b'/' => Token::Slash,
        b'(' => Token::Open,
        b')' => Token::Close,
        _ => Token::Name(byte as char),
    }
}

/// The tokens of a text.
fn tokens_of(alloc: Global, text: &[u8]) -> Result<Vec<Token>, NoMemory> {
    let mut found = Vec::new(alloc);
    for byte in text {
        found.push(token_of(*byte))?;
    }
    Ok(found)
}

/// The levels within which the cases are read.
fn levels_of(case: &Case) -> Result<u32, CaseFault> {
    let levels = case.the(b"levels")?;
    number_of(levels.words.as_bytes()).ok_or(levels.means_nothing())
}

/// The tree of a sum, or its refusal.
pub fn summed(alloc: Global, case: &Case, text: &Text) -> Result<Vec<u8>, CaseFault> {
    let levels = levels_of(case)?;
    let found = tokens_of(alloc, text.as_bytes())?;
    let said = format!(in alloc; "{:?}", read_sum(alloc, found.as_slice(), levels))?;
    Ok(line(alloc, said.as_bytes())?)
}
