//! Comments, which nest.

ghost use Rattle.std.specs.Prelude.{◌≡◌, ◌≤◌, IfSome, length, true};
ghost use Rattle.sml_lexer.specs.Gaps as spec;
ghost use Rattle.sml_lexer.specs.Fronts.{TakesWithin};

use crate::bytes::byte_at;
use crate::front::Front;

/// Whether a comment begins at the front of a text.
pub(crate) fn begins_comment(text: &[u8]) -> bool
    ensures { result ≡ spec.begins_comment text.now }
{
    byte_at(text, 0) == b'(' && byte_at(text, 1) == b'*'
}

/// Whether two bytes open a comment.
fn opens(first: u8, second: u8) -> bool
    ensures { result ≡ spec.opens first second }
{
    first == b'(' && second == b'*'
}

/// Whether two bytes close a comment.
fn closes(first: u8, second: u8) -> bool
    ensures { result ≡ spec.closes first second }
{
    first == b'*' && second == b')'
}

/// The length of the rest of a comment, after the `(*` that opens it, where it ends.
fn comment_rest(text: &[u8]) -> Option<usize>
    ensures rest { result ≡ spec.comment_rest 0 text.now }
    ensures within { IfSome result (λ len. len ≤ length text.now) }
{
    let mut depth = 0usize;
    let mut at = 0usize;
    while at + 1 < text.len() {
        let (first, second) = (text[at], text[at + 1]);
        if opens(first, second) {
            depth += 1;
            at += 2;
        } else if closes(first, second) {
            if depth == 0 {
                return Some(at + 2);
            }
            depth -= 1;
            at += 2;
        } else {
            at += 1;
        }
    }
    None
}

/// The comment at the front of a text that begins with `(*`.
#[tactic(auto, unfolding(crate::specs::Gaps::comment_front), using(crate::proofs::GapsLemmas::comment_has_opening))]
pub(crate) fn comment(text: &[u8]) -> Front
    requires { spec.begins_comment text.now ≡ true }
    ensures value { result ≡ spec.comment_front text.now }
    ensures within { TakesWithin result (length text.now) }
{
    match comment_rest(&text[2..]) {
        Some(len) => Front::Gap(2 + len),
        None => Front::Refused(20),
    }
}
