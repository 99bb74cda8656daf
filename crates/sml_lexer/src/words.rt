//! The reserved words and marks of the language.

ghost use Rattle.std.specs.Prelude.{◌≡◌};
ghost use Rattle.sml_lexer.specs.Words.{same_word, word_of, mark, a_to_d, e_to_f, h_to_n, o_to_s, t_to_w};

use crate::bytes::byte_at;

/// A reserved word, or a mark.
#[derive(Clone, Copy, Debug, PartialEq, Eq)]
pub enum Word {
    /// `(`
    Open,
    /// `)`
    Close,
    /// `[`
    OpenBracket,
    /// `]`
    CloseBracket,
    /// `{`
    OpenBrace,
    /// `}`
    CloseBrace,
    /// `,`
    Comma,
    /// `:`
    Colon,
    /// `:>`
    Seal,
    /// `;`
    Semicolon,
    /// `...`
    Dots,
    /// `_`
    Wild,
    /// `|`
    Bar,
    /// `=`
    Equals,
    /// `=>`
    DoubleArrow,
    /// `->`
    Arrow,
    /// `#`
    Hash,
    /// `abstype`
    AbsType,
    /// `and`
    And,
    /// `andalso`
    AndAlso,
    /// `as`
    As,
    /// `case`
    Case,
    /// `datatype`
    Datatype,
    /// `do`
    Do,
    /// `else`
    Else,
    /// `end`
    End,
    /// `exception`
    Exception,
    /// `fn`
    Fn,
    /// `fun`
    Fun,
    /// `handle`
    Handle,
    /// `if`
    If,
    /// `in`
    In,
    /// `infix`
    Infix,
    /// `infixr`
    Infixr,
    /// `let`
    Let,
    /// `local`
    Local,
    /// `nonfix`
    Nonfix,
    /// `of`
    Of,
    /// `op`
    Op,
    /// `open`
    OpenWord,
    /// `orelse`
    OrElse,
    /// `raise`
    Raise,
    /// `rec`
    Rec,
    /// `then`
    Then,
    /// `type`
    TypeWord,
    /// `val`
    Val,
    /// `while`
    While,
    /// `with`
    With,
    /// `withtype`
    WithType,
    /// `eqtype`
    EqType,
    /// `functor`
    Functor,
    /// `funsig`
    Funsig,
    /// `include`
    Include,
    /// `sharing`
    Sharing,
    /// `sig`
    Sig,
    /// `signature`
    Signature,
    /// `struct`
    Struct,
    /// `structure`
    Structure,
    /// `where`
    Where,
}

impl Word {
    /// Whether this is the other word.
    #[tactic(auto, unfolding(crate::specs::Words::same_word))]
    pub fn is(self, other: Word) -> bool
        ensures { result ≡ same_word self other }
    {
        self == other
    }

    /// The reserved word or mark that a text spells, if it does (The Definition of Standard ML, sections 2.1 and 3.1).
    #[tactic(auto, using(crate::proofs::WordsLemmas::marks_below, crate::proofs::WordsLemmas::only_a_to_d, crate::proofs::WordsLemmas::only_e_to_f, crate::proofs::WordsLemmas::only_h_to_n, crate::proofs::WordsLemmas::only_o_to_s, crate::proofs::WordsLemmas::only_t_to_w, crate::proofs::WordsLemmas::marks_above))]
    pub fn of(text: &[u8]) -> Option<Word>
        ensures { result ≡ word_of text.now }
    {
        let first = byte_at(text, 0);
        if first < b'a' {
            mark(text)
        } else if first <= b'd' {
            a_to_d(text)
        } else if first <= b'f' {
            e_to_f(text)
        } else if first <= b'n' {
            h_to_n(text)
        } else if first <= b's' {
            o_to_s(text)
        } else if first <= b'w' {
            t_to_w(text)
        } else {
            mark(text)
        }
    }
}

/// The mark that a text is, if it is one.
#[tactic(auto, unfolding(crate::specs::Words::mark))]
fn mark(text: &[u8]) -> Option<Word>
    ensures { result ≡ mark text.now }
{
    if text == b"(".as_slice() {
        return Some(Word::Open);
    }
    if text == b")".as_slice() {
        return Some(Word::Close);
    }
    if text == b"[".as_slice() {
        return Some(Word::OpenBracket);
    }
    if text == b"]".as_slice() {
        return Some(Word::CloseBracket);
    }
    if text == b"{".as_slice() {
        return Some(Word::OpenBrace);
    }
    if text == b"}".as_slice() {
        return Some(Word::CloseBrace);
    }
    if text == b",".as_slice() {
        return Some(Word::Comma);
    }
    if text == b":".as_slice() {
        return Some(Word::Colon);
    }
    if text == b":>".as_slice() {
        return Some(Word::Seal);
    }
    if text == b";".as_slice() {
        return Some(Word::Semicolon);
    }
    if text == b"...".as_slice() {
        return Some(Word::Dots);
    }
    if text == b"_".as_slice() {
        return Some(Word::Wild);
    }
    if text == b"|".as_slice() {
        return Some(Word::Bar);
    }
    if text == b"=".as_slice() {
        return Some(Word::Equals);
    }
    if text == b"=>".as_slice() {
        return Some(Word::DoubleArrow);
    }
    if text == b"->".as_slice() {
        return Some(Word::Arrow);
    }
    if text == b"#".as_slice() {
        return Some(Word::Hash);
    }
    None
}

/// The reserved word from `abstype` to `do` that a text is, if it is one.
#[tactic(auto, unfolding(crate::specs::Words::a_to_d))]
fn a_to_d(text: &[u8]) -> Option<Word>
    ensures { result ≡ a_to_d text.now }
{
    if text == b"abstype".as_slice() {
        return Some(Word::AbsType);
    }
    if text == b"and".as_slice() {
        return Some(Word::And);
    }
    if text == b"andalso".as_slice() {
        return Some(Word::AndAlso);
    }
    if text == b"as".as_slice() {
        return Some(Word::As);
    }
    if text == b"case".as_slice() {
        return Some(Word::Case);
    }
    if text == b"datatype".as_slice() {
        return Some(Word::Datatype);
    }
    if text == b"do".as_slice() {
        return Some(Word::Do);
    }
    None
}

/// The reserved word from `else` to `funsig` that a text is, if it is one.
#[tactic(auto, unfolding(crate::specs::Words::e_to_f))]
fn e_to_f(text: &[u8]) -> Option<Word>
    ensures { result ≡ e_to_f text.now }
{
    if text == b"else".as_slice() {
        return Some(Word::Else);
    }
    if text == b"end".as_slice() {
        return Some(Word::End);
    }
    if text == b"eqtype".as_slice() {
        return Some(Word::EqType);
    }
    if text == b"exception".as_slice() {
        return Some(Word::Exception);
    }
    if text == b"fn".as_slice() {
        return Some(Word::Fn);
    }
    if text == b"fun".as_slice() {
        return Some(Word::Fun);
    }
    if text == b"functor".as_slice() {
        return Some(Word::Functor);
    }
    if text == b"funsig".as_slice() {
        return Some(Word::Funsig);
    }
    None
}

/// The reserved word from `handle` to `nonfix` that a text is, if it is one.
#[tactic(auto, unfolding(crate::specs::Words::h_to_n))]
fn h_to_n(text: &[u8]) -> Option<Word>
    ensures { result ≡ h_to_n text.now }
{
    if text == b"handle".as_slice() {
        return Some(Word::Handle);
    }
    if text == b"if".as_slice() {
        return Some(Word::If);
    }
    if text == b"in".as_slice() {
        return Some(Word::In);
    }
    if text == b"include".as_slice() {
        return Some(Word::Include);
    }
    if text == b"infix".as_slice() {
        return Some(Word::Infix);
    }
    if text == b"infixr".as_slice() {
        return Some(Word::Infixr);
    }
    if text == b"let".as_slice() {
        return Some(Word::Let);
    }
    if text == b"local".as_slice() {
        return Some(Word::Local);
    }
    if text == b"nonfix".as_slice() {
        return Some(Word::Nonfix);
    }
    None
}

/// The reserved word from `of` to `structure` that a text is, if it is one.
#[tactic(auto, unfolding(crate::specs::Words::o_to_s))]
fn o_to_s(text: &[u8]) -> Option<Word>
    ensures { result ≡ o_to_s text.now }
{
    if text == b"of".as_slice() {
        return Some(Word::Of);
    }
    if text == b"op".as_slice() {
        return Some(Word::Op);
    }
    if text == b"open".as_slice() {
        return Some(Word::OpenWord);
    }
    if text == b"orelse".as_slice() {
        return Some(Word::OrElse);
    }
    if text == b"raise".as_slice() {
        return Some(Word::Raise);
    }
    if text == b"rec".as_slice() {
        return Some(Word::Rec);
    }
    if text == b"sharing".as_slice() {
        return Some(Word::Sharing);
    }
    if text == b"sig".as_slice() {
        return Some(Word::Sig);
    }
    if text == b"signature".as_slice() {
        return Some(Word::Signature);
    }
    if text == b"struct".as_slice() {
        return Some(Word::Struct);
    }
    if text == b"structure".as_slice() {
        return Some(Word::Structure);
    }
    None
}

/// The reserved word from `then` to `withtype` that a text is, if it is one.
#[tactic(auto, unfolding(crate::specs::Words::t_to_w))]
fn t_to_w(text: &[u8]) -> Option<Word>
    ensures { result ≡ t_to_w text.now }
{
    if text == b"then".as_slice() {
        return Some(Word::Then);
    }
    if text == b"type".as_slice() {
        return Some(Word::TypeWord);
    }
    if text == b"val".as_slice() {
        return Some(Word::Val);
    }
    if text == b"where".as_slice() {
        return Some(Word::Where);
    }
    if text == b"while".as_slice() {
        return Some(Word::While);
    }
    if text == b"with".as_slice() {
        return Some(Word::With);
    }
    if text == b"withtype".as_slice() {
        return Some(Word::WithType);
    }
    None
}
