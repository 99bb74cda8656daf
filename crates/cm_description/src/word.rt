//! The words of descriptions.

ghost use Rattle.std.specs.Prelude.{◌≡◌};
ghost use Rattle.std.specs.List.{list_all};
ghost use Rattle.cm_base.specs.ByteClasses.{is_letter, is_identifier_byte};
ghost use Rattle.cm_conditions.specs.Grammar.{space_of};
ghost use Rattle.cm_description.specs.Words.{is_group_word, is_library_word, is_is_word, is_identifier, allows, directive_of};

use crate::directive::Directive;
use cm_base::{Namespace, is_identifier_byte, is_letter};

/// What is wanted of a word.
#[derive(Clone, Copy, Debug, PartialEq, Eq)]
pub enum WordKind {
    /// `group` or `library`.
    Kind,
    /// `is`.
    Is,
    /// An alphanumeric identifier.
    Identifier,
    /// A word of letters.
    Letters,
}

/// Whether each byte may stand in an identifier.
fn are_identifier_bytes(bytes: &[u8]) -> bool
    ensures { result ≡ list_all is_identifier_byte bytes.now }
{
    bytes.iter().all(|byte| is_identifier_byte(*byte))
}

/// Whether a word is an alphanumeric identifier.
fn is_identifier(word: &[u8]) -> bool
    ensures { result ≡ is_identifier word.now }
{
    match word.split_first() {
        Some((byte, bytes)) => is_letter(*byte) && are_identifier_bytes(bytes),
        None => false,
    }
}

/// Whether each byte is a letter.
fn are_letters(word: &[u8]) -> bool
    ensures { result ≡ list_all is_letter word.now }
{
    word.iter().all(|byte| is_letter(*byte))
}

/// Whether a word is `group`, as it is, with a capital or in capitals.
#[tactic(auto, unfolding(crate::specs::Words::is_group_word))]
pub(crate) fn is_group_word(word: &[u8]) -> bool
    ensures { result ≡ is_group_word word.now }
{
    word == b"group".as_slice() || word == b"Group".as_slice() || word == b"GROUP".as_slice()
}

/// Whether a word is `is`, as it is or in capitals.
#[tactic(auto, unfolding(crate::specs::Words::is_is_word))]
pub(crate) fn is_is_word(word: &[u8]) -> bool
    ensures { result ≡ is_is_word word.now }
{
    word == b"is".as_slice() || word == b"IS".as_slice()
}

/// Whether a word is `library`, as it is, with a capital or in capitals.
#[tactic(auto, unfolding(crate::specs::Words::is_library_word))]
pub(crate) fn is_library_word(word: &[u8]) -> bool
    ensures { result ≡ is_library_word word.now }
{
    word == b"library".as_slice() || word == b"Library".as_slice() || word == b"LIBRARY".as_slice()
}

/// Whether a word is one that is wanted.
pub(crate) fn allows(wanted: WordKind, word: &[u8]) -> bool
    ensures { result ≡ allows wanted word.now }
{
    match wanted {
        WordKind::Kind => is_group_word(word) || is_library_word(word),
        WordKind::Is => is_is_word(word),
        WordKind::Identifier => is_identifier(word),
        WordKind::Letters => are_letters(word),
    }
}

/// The name space that a word stands for, if it does.
#[tactic(auto, unfolding(cm_conditions::specs::Grammar::space_of))]
pub(crate) fn space_of(word: &[u8]) -> Option<Namespace>
    ensures { result ≡ space_of word.now }
{
    if word == b"structure".as_slice() {
        Some(Namespace::Structure)
    } else if word == b"signature".as_slice() {
        Some(Namespace::Signature)
    } else if word == b"functor".as_slice() {
        Some(Namespace::Functor)
    } else if word == b"funsig".as_slice() {
        Some(Namespace::Funsig)
    } else {
        None
    }
}

/// The directive of a word, behind its sign.
#[tactic(auto, unfolding(crate::specs::Words::directive_of))]
pub(crate) fn directive_of(word: &[u8]) -> Directive
    ensures { result ≡ directive_of word.now }
{
    if word == b"if".as_slice() {
        Directive::If
    } else if word == b"elif".as_slice() {
        Directive::Elif
    } else if word == b"else".as_slice() {
        Directive::Else
    } else if word == b"endif".as_slice() {
        Directive::Endif
    } else {
        Directive::Error
    }
}
