//! Why a text is no sum.

/// Why a text is no sum. A place is the number of tokens before it.
#[derive(Clone, Copy, Debug, PartialEq, Eq)]
pub enum Refusal {
    /// No sum goes on with the next token, or the text ends too early.
    NoPhrase(usize),
    /// The last token before the place opens a level too many.
    TooDeep(usize),
    /// There was no memory for the tree.
    NoMemory,
}
