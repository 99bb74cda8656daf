//! What stands at the front of a text: a gap, a lexeme, or what is refused.

ghost use Rattle.std.specs.Prelude.{◌≡◌, ◌<◌, IfOk, length};
ghost use Rattle.sml_lexer.specs.Fronts as spec;
ghost use Rattle.sml_lexer.specs.Fronts.{TakesWithin};

use crate::bytes::{blank_run, byte_at, is_blank};
use crate::gap::{begins_comment, comment};
use crate::lexeme::LexemeKind;
use crate::name::{mark_len, type_variable, word, word_len};
use crate::number::{begins_number, number};
use crate::quoted::{begins_character, character, string};
use cm_base::{NoMemory, Text};
use std::alloc::Global;

/// What stands at the front of a text, and how many bytes it takes; or the number of the diagnostic there.
#[derive(Debug, Drop)]
pub(crate) enum Front {
    Gap(usize),
    Lexeme(LexemeKind, usize),
    Refused(u8),
}

/// The mark at the front of a text that is made of other bytes than symbols.
#[tactic(auto, unfolding(crate::specs::Fronts::mark_front))]
fn mark(alloc: Global, text: &[u8]) -> Result<Front, NoMemory>
    ensures value { IfOk result (λ front. front ≡ spec.mark_front text.now) }
    ensures within { IfOk result (λ front. TakesWithin front (length text.now)) }
{
    let len = mark_len(text);
    if len == 0 {
        return Ok(Front::Refused(20));
    }
    let mark = Text::from_bytes(alloc, &text[..len])?;
    Ok(Front::Lexeme(LexemeKind::Reserved(mark), len))
}

/// What stands at the front of a text.
#[tactic(auto, unfolding(crate::specs::Fronts::front), using(crate::proofs::BytesLemmas::blank_begins))]
pub(crate) fn at_front(alloc: Global, text: &[u8]) -> Result<Front, NoMemory>
    requires { 0 < length text.now }
    ensures value { IfOk result (λ front. front ≡ spec.front text.now) }
    ensures within { IfOk result (λ front. TakesWithin front (length text.now)) }
{
    let byte = byte_at(text, 0);
    if is_blank(byte) {
        Ok(Front::Gap(blank_run(text)))
    } else if begins_comment(text) {
        Ok(comment(text))
    } else if begins_number(text) {
        Ok(number(text))
    } else if byte == b'"' {
        string(alloc, text)
    } else if begins_character(text) {
        character(alloc, text)
    } else if byte == b'\'' {
        type_variable(alloc, text)
    } else if word_len(text) > 0 {
        word(alloc, text)
    } else {
        mark(alloc, text)
    }
}
