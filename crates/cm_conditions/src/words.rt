//! What the words and the marks of conditions are.

ghost use Rattle.std.specs.Prelude.{◌≡◌, true};
ghost use Rattle.std.specs.Option.{option_copied};
ghost use Rattle.cm_conditions.specs.Grammar.{is_orelse, is_andalso, is_div, is_mod, is_not, is_defined, is_reserved, is_name, space_of, operator_word, operator_mark, operator_of, comparison_mark, comparison_of, is_paren, is_word, word_of, starts_atom};

use crate::lexeme::{Lexeme, Mark, Operator, Strength};
use cm_base::{Namespace, Text};

/// Whether a word is a word of the grammar itself.
#[tactic(auto, unfolding(crate::specs::Grammar::is_orelse, crate::specs::Grammar::is_andalso, crate::specs::Grammar::is_div, crate::specs::Grammar::is_mod, crate::specs::Grammar::is_not, crate::specs::Grammar::is_defined))]
fn is_reserved(word: &[u8]) -> bool
    ensures { result ≡ is_reserved word.now }
{
    word == b"orelse".as_slice()
        || word == b"andalso".as_slice()
        || word == b"div".as_slice()
        || word == b"mod".as_slice()
        || word == b"not".as_slice()
        || word == b"defined".as_slice()
}

/// Whether a word may be a name of conditions: it is no word of their grammar, and has no `'`. That its first byte is a
/// letter and all others may stand in an identifier is what makes it a word.
pub fn is_name(word: &[u8]) -> bool
    ensures { result ≡ is_name word.now }
{
    !is_reserved(word) && !word.contains(&b'\'')
}

/// Whether a word is `not`.
#[tactic(auto, unfolding(crate::specs::Grammar::is_not))]
pub(crate) fn is_not(word: &[u8]) -> bool
    ensures { result ≡ is_not word.now }
{
    word == b"not".as_slice()
}

/// Whether a word is `defined`.
#[tactic(auto, unfolding(crate::specs::Grammar::is_defined))]
pub(crate) fn is_defined(word: &[u8]) -> bool
    ensures { result ≡ is_defined word.now }
{
    word == b"defined".as_slice()
}

/// The name space that a word stands for, if it does.
#[tactic(auto, unfolding(crate::specs::Grammar::space_of))]
pub(crate) fn space_of(word: &[u8]) -> Option<Namespace>
    ensures { result ≡ space_of word.now }
{
    if word == b"structure".as_slice() {
        Some(Namespace::Structure)
    } else if word == b"signature".as_slice() {
        Some(Namespace::Signature)
    } else if word == b"functor".as_slice() {
        Some(Namespace::Functor)
    } else if word == b"funsig".as_slice() {
        Some(Namespace::Funsig)
    } else {
        None
    }
}

/// The operator of this strength that a word is, if it is one.
#[tactic(auto, unfolding(crate::specs::Grammar::is_orelse, crate::specs::Grammar::is_andalso, crate::specs::Grammar::is_div, crate::specs::Grammar::is_mod))]
fn operator_word(strength: Strength, word: &[u8]) -> Option<Operator>
    ensures { result ≡ operator_word strength word.now }
{
    match strength {
        Strength::Or if word == b"orelse".as_slice() => Some(Operator::Orelse),
        Strength::And if word == b"andalso".as_slice() => Some(Operator::Andalso),
        Strength::Product if word == b"div".as_slice() => Some(Operator::Div),
        Strength::Product if word == b"mod".as_slice() => Some(Operator::Mod),
        _ => None,
    }
}

/// The operator of this strength that a mark is, if it is one.
fn operator_mark(strength: Strength, mark: Mark) -> Option<Operator>
    ensures { result ≡ operator_mark strength mark }
{
    match (strength, mark) {
        (Strength::Sum, Mark::Plus) => Some(Operator::Add),
        (Strength::Sum, Mark::Minus) => Some(Operator::Subtract),
        (Strength::Product, Mark::Times) => Some(Operator::Multiply),
        _ => None,
    }
}

impl Lexeme {
    /// The operator of this strength that the lexeme is, if it is one.
    pub(crate) fn operator(&self, strength: Strength) -> Option<Operator>
        ensures { result ≡ operator_of strength self.now }
    {
        match self {
            Lexeme::Word(word) => operator_word(strength, word.as_bytes()),
            Lexeme::Mark(mark) => operator_mark(strength, *mark),
            Lexeme::Number(_) | Lexeme::Wrong => None,
        }
    }

    /// The comparison that the lexeme is, if it is one.
    pub(crate) fn comparison(&self) -> Option<Operator>
        ensures { result ≡ comparison_of self.now }
    {
        match self {
            Lexeme::Mark(Mark::Equal) => Some(Operator::Equal),
            Lexeme::Mark(Mark::Unequal) => Some(Operator::Unequal),
            Lexeme::Mark(Mark::Less) => Some(Operator::Less),
            Lexeme::Mark(Mark::LessEqual) => Some(Operator::LessEqual),
            Lexeme::Mark(Mark::Greater) => Some(Operator::Greater),
            Lexeme::Mark(Mark::GreaterEqual) => Some(Operator::GreaterEqual),
            _ => None,
        }
    }

    /// Whether the lexeme is this parenthesis.
    pub(crate) fn is_paren(&self, mark: Mark) -> bool
        ensures { result ≡ is_paren mark self.now }
    {
        match (self, mark) {
            (Lexeme::Mark(Mark::Open), Mark::Open) => true,
            (Lexeme::Mark(Mark::Close), Mark::Close) => true,
            _ => false,
        }
    }

    /// Whether the lexeme is `not`.
    pub(crate) fn is_not(&self) -> bool
        ensures { result ≡ is_word is_not self.now }
    {
        match self {
            Lexeme::Word(word) => is_not(word.as_bytes()),
            _ => false,
        }
    }

    /// Whether an atom begins with the lexeme.
    pub(crate) fn starts_atom(&self) -> bool
        ensures { result ≡ starts_atom self.now }
    {
        match self {
            Lexeme::Number(_) | Lexeme::Mark(Mark::Open) => true,
            Lexeme::Word(word) => is_defined(word.as_bytes()) || is_name(word.as_bytes()),
            Lexeme::Mark(_) | Lexeme::Wrong => false,
        }
    }

    /// The lexeme's word, if it is one.
    pub(crate) fn word(&self) -> Option<&Text>
        ensures { option_copied result ≡ word_of (λ _. true) self.now }
    {
        match self {
            Lexeme::Word(word) => Some(word),
            _ => None,
        }
    }

    /// The lexeme's word, if it is a name of conditions.
    pub(crate) fn name(&self) -> Option<&Text>
        ensures { option_copied result ≡ word_of is_name self.now }
    {
        match self {
            Lexeme::Word(word) => {
                if is_name(word.as_bytes()) {
                    Some(word)
                } else {
                    None
                }
            }
            _ => None,
        }
    }
}
