//! The kinds of cases, by the names that stand behind `@` in a file of cases, and the sections that each has.

use case_files::{Case, CaseFault, Wrong};

/// What a case is a case of.
#[derive(Clone, Copy)]
pub enum Kind {
    /// `lexemes`: the lexemes of a source in a line.
    Lexemes,
    /// `lexeme-count`: how many lexemes a source has.
    LexemeCount,
    /// `lexeme-places`: a line for each lexeme of a source, with its place.
    LexemePlaces,
    /// `type`: a type of at most so many levels, and how many lexemes are left.
    Type,
    /// `pattern`: a pattern of at most so many levels, and how many lexemes are left.
    Pattern,
    /// `expression`: an expression of at most so many levels, and how many lexemes are left.
    Expression,
    /// `declarations`: declarations of at most so many levels, and the column of the next lexeme.
    Declarations,
    /// `type-at`: a type at a cursor, and the column of the next lexeme.
    TypeAt,
    /// `pattern-at`: a pattern at a cursor, and the column of the next lexeme.
    PatternAt,
    /// `expression-at`: an expression at a cursor, and the column of the next lexeme.
    ExpressionAt,
    /// `declaration-at`: a declaration at a cursor, and the column of the next lexeme.
    DeclarationAt,
    /// `unit`: the tree of a source as it is written.
    Unit,
    /// `places`: the tree of a source as it is written, with its places.
    Places,
    /// `bare`: the bare tree of a source, with its places.
    Bare,
    /// `repeat`: the first place at which a name of a source stands again.
    Repeat,
    /// `height`: that of the bare tree of a source, in levels.
    Height,
    /// `source-code`: the bytes of the code of a source.
    SourceCode,
    /// `code`: the bare tree that bytes are the code of.
    Code,
    /// `code-fronts`: how long the fronts of bytes are that are codes.
    CodeFronts,
    /// `skeleton`: what the compiler tells of a source.
    Skeleton,
    /// `compiled`: whether the compiler compiles a source.
    Compiled,
    /// `interface`: the bytes of the interface of a source.
    Interface,
    /// `compiled-code`: the bytes of the code that the compiler makes of a source.
    CompiledCode,
}

/// The sections that each kind has.
const SHARED: [&[u8]; 6] = [b"text", b"times", b"each", b"table", b"gives", b"more"];

/// The sections of a phrase of at most so many levels.
const PHRASE: [&[u8]; 5] = [b"levels", b"basis", b"infix", b"infixr", b"briefly"];

/// The sections of a phrase at a cursor.
const AT_CURSOR: [&[u8]; 2] = [b"open", b"briefly"];

/// The sections of a unit that is compiled.
const OF_UNITS: [&[u8]; 2] = [b"import", b"options"];

/// The kinds with their names.
const KINDS: [(&[u8], Kind); 23] = [
    (b"lexemes", Kind::Lexemes),
    (b"lexeme-count", Kind::LexemeCount),
    (b"lexeme-places", Kind::LexemePlaces),
    (b"type", Kind::Type),
    (b"pattern", Kind::Pattern),
    (b"expression", Kind::Expression),
    (b"declarations", Kind::Declarations),
    (b"type-at", Kind::TypeAt),
    (b"pattern-at", Kind::PatternAt),
    (b"expression-at", Kind::ExpressionAt),
    (b"declaration-at", Kind::DeclarationAt),
    (b"unit", Kind::Unit),
    (b"places", Kind::Places),
    (b"bare", Kind::Bare),
    (b"repeat", Kind::Repeat),
    (b"height", Kind::Height),
    (b"source-code", Kind::SourceCode),
    (b"code", Kind::Code),
    (b"code-fronts", Kind::CodeFronts),
    (b"skeleton", Kind::Skeleton),
    (b"compiled", Kind::Compiled),
    (b"interface", Kind::Interface),
    (b"compiled-code", Kind::CompiledCode),
];

/// The kind of a name.
pub fn kind_of(name: &[u8]) -> Option<Kind> {
    for (known, kind) in KINDS {
        if known == name {
            return Some(kind);
        }
    }
    None
}

/// Whether a name is one of these.
fn is_among(name: &[u8], names: &[&[u8]]) -> bool {
    names.iter().any(|known| *known == name)
}

/// Whether a kind has a section of this name beside those that each kind has.
fn is_own(kind: Kind, name: &[u8]) -> bool {
    match kind {
        Kind::Type | Kind::Pattern | Kind::Expression | Kind::Declarations => is_among(
            name, &PHRASE,
        ),
        Kind::TypeAt | Kind::PatternAt | Kind::ExpressionAt | Kind::DeclarationAt => is_among(
            name, &AT_CURSOR,
        ),
        Kind::Unit | Kind::Bare | Kind::Code => name == b"briefly".as_slice(),
        Kind::Compiled | Kind::Interface | Kind::CompiledCode => is_among(name, &OF_UNITS),
        _ => false,
    }
}

/// Refuses a section that a kind doesn't have.
pub fn refuse_others(kind: Kind, case: &Case) -> Result<(), CaseFault> {
    for section in case.sections.as_slice() {
        let name = section.name.as_bytes();
        if !is_among(name, &SHARED) && !is_own(kind, name) {
            return Err(CaseFault::Wrong(section.line, Wrong::UnknownSection));
        }
    }
    Ok(())
}
