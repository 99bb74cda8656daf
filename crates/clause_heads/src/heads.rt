//! The heads of the clauses of functions, and what the clauses before ask of them.

ghost use Rattle.std.specs.Prelude.{◌≡◌, ◌+◌, IfOk, MatchResult, is_some, None};
ghost use Rattle.grammars.specs.Grammar.{End, begins, head_or};
ghost use Rattle.grammars.specs.Reading.{Out, read};
ghost use Rattle.phrase_reading.specs.Names.{beginning};
ghost use Rattle.phrase_reading.specs.Reads.{Reads, Stops};
ghost use Rattle.phrase_reading.specs.Words.{taken, named, long_named};
ghost use Rattle.clause_heads.specs.Heads.{bare, may_be, may_go_on, may_end, may_be_infix, may_be_bare, wanted_by, operator_in, bare_operator, if_prefix, prefix_name, behind_op, starts_head_kind, starts_head};

use cm_base::{List, NoMemory, Text};
use core_patterns::pat_starts::starts_atpat;
use infix_names::fixity::Fixities;
use phrase_reading::lexemes::Lexemes;
use phrase_reading::stop::Stop;
use sml_lexer::{Lexeme, LexemeKind, Word};
use sml_trees::{FullHead, LongName, Name};

/// What the clauses before ask of a clause.
#[derive(Debug, Drop)]
pub enum Wanted {
    /// Nothing: it is the first.
    Any,
    /// The name, and the number of arguments.
    Same(Text, usize),
}

impl Wanted {
    /// What clauses behind one of this head must be.
    pub fn by(head: &FullHead) -> Result<Wanted, NoMemory>
        ensures { IfOk result (λ wanted. wanted ≡ wanted_by head.now) }
    {
        match head {
            FullHead::Prefix(called, args) => Ok(Wanted::Same(
                called.name.text.copy()?,
                args.len(),
            )),
            FullHead::Infix(_, called, _) => Ok(Wanted::Same(called.text.copy()?, 1)),
            FullHead::ParenInfix(_, called, _, args) => {
                let args = args.len().checked_add(1).ok_or(NoMemory)?;
                Ok(Wanted::Same(called.text.copy()?, args))
            }
        }
    }

    /// Whether the clause may be one of that name.
    pub fn may_be(&self, text: &Text) -> bool
        ensures { result ≡ may_be self.now text.now }
    {
        match self {
            Wanted::Any => true,
            Wanted::Same(name, _) => name.as_bytes() == text.as_bytes(),
        }
    }

    /// Whether another argument may stand behind so many.
    pub fn may_go_on(&self, args: usize) -> bool
        ensures { result ≡ may_go_on self.now args }
    {
        match self {
            Wanted::Any => true,
            Wanted::Same(_, count) => args < *count,
        }
    }

    /// Whether so many arguments are enough.
    pub fn may_end(&self, args: usize) -> bool
        ensures { result ≡ may_end self.now args }
    {
        match self {
            Wanted::Any => 0 < args,
            Wanted::Same(_, count) => args == *count,
        }
    }

    /// Whether the name of the clause may stand between two patterns in parentheses.
    pub fn may_be_infix(&self, fixities: &Fixities) -> bool
        ensures { result ≡ may_be_infix fixities.now self.now }
    {
        match self {
            Wanted::Any => true,
            Wanted::Same(name, _) => fixities.find(name).is_some(),
        }
    }

    /// Whether two patterns with the name between them may be the whole head.
    pub fn may_be_bare(&self, fixities: &Fixities) -> bool
        ensures { result ≡ may_be_bare fixities.now self.now }
    {
        match self {
            Wanted::Any => true,
            Wanted::Same(name, args) => *args == 1 && fixities.find(name).is_some(),
        }
    }

    /// Whether a head of the first form may begin with this name, which has `op` before it or not.
    pub fn may_begin(&self, fixities: &Fixities, op: bool, text: &Text) -> bool
        ensures { result ≡ is_some (if_prefix fixities.now self.now op text.now) }
    {
        (op || fixities.find(text).is_none()) && self.may_be(text)
    }
}

/// Whether a lexeme is an infix name of which the clause may be.
fn is_operator(lexeme: &Lexeme, fixities: &Fixities, wanted: &Wanted) -> bool
    ensures { result ≡ is_some (operator_in fixities.now wanted.now lexeme.now) }
{
    match &lexeme.kind {
        LexemeKind::Name(parts) => match parts.as_slice() {
            [text] => fixities.find(text).is_some() && wanted.may_be(text),
            _ => false,
        },
        _ => false,
    }
}

/// The infix name that a lexeme is, where the clause may be one of that name.
fn operator_in(
    lexeme: &Lexeme,
    fixities: &Fixities,
    wanted: &Wanted,
) -> Result<Option<Text>, NoMemory>
    ensures { IfOk result (λ found. found ≡ operator_in fixities.now wanted.now lexeme.now) }
{
    match &lexeme.kind {
        LexemeKind::Name(parts) => match parts.as_slice() {
            [text] if fixities.find(text).is_some() && wanted.may_be(text) => Ok(Some(
                text.copy()?,
            )),
            _ => Ok(None),
        },
        _ => Ok(None),
    }
}

/// The same, where two patterns with the name between them may be the whole head.
fn bare_operator(
    lexeme: &Lexeme,
    fixities: &Fixities,
    wanted: &Wanted,
) -> Result<Option<Text>, NoMemory>
    ensures { IfOk result (λ found. found ≡ bare_operator fixities.now wanted.now lexeme.now) }
{
    if wanted.may_be_bare(fixities) {
        operator_in(lexeme, fixities, wanted)
    } else {
        Ok(None)
    }
}

/// Takes an infix name of which the clause may be.
#[tactic(auto, using(phrase_reading::proofs::Steps::taken_steps))]
pub fn operator(
    lexemes: &mut Lexemes<'_>,
    fixities: &Fixities,
    wanted: &Wanted,
) -> Result<Name, Stop>
    ensures { Reads (taken (operator_in fixities.now wanted.now) named) lexemes.old.rest.now
        result lexemes.new.rest.now }
{
    let Some(next) = lexemes.peek() else {
        return Err(Stop::Refused);
    };
    let Some(text) = operator_in(next, fixities, wanted)? else {
        return Err(Stop::Refused);
    };
    lexemes.take();
    Ok(Name {
        text,
        line: next.line,
        col: next.col,
    })
}

/// Takes an infix name behind which the head may end with one more pattern.
#[tactic(auto, using(phrase_reading::proofs::Steps::taken_steps))]
pub fn bare(lexemes: &mut Lexemes<'_>, fixities: &Fixities, wanted: &Wanted) -> Result<Name, Stop>
    ensures { Reads (bare fixities.now wanted.now) lexemes.old.rest.now result lexemes.new.rest.now }
{
    let Some(next) = lexemes.peek() else {
        return Err(Stop::Refused);
    };
    let Some(text) = bare_operator(next, fixities, wanted)? else {
        return Err(Stop::Refused);
    };
    lexemes.take();
    Ok(Name {
        text,
        line: next.line,
        col: next.col,
    })
}

/// The name that may stand behind an `op` at the beginning of a head.
fn behind_op(
    lexeme: &Lexeme,
    fixities: &Fixities,
    wanted: &Wanted,
) -> Result<Option<List<Text>>, NoMemory>
    ensures { IfOk result (λ found. found ≡ behind_op fixities.now wanted.now lexeme.now) }
{
    match &lexeme.kind {
        LexemeKind::Name(parts)
            if wanted.may_be_bare(fixities)
                || begins_with(parts.as_slice(), fixities, wanted, true) => {
            Ok(Some(parts.clone()?))
        }
        _ => Ok(None),
    }
}

/// Takes a name behind an `op` at the beginning of a head.
#[tactic(auto, using(phrase_reading::proofs::Steps::taken_steps))]
pub fn long_behind_op(
    lexemes: &mut Lexemes<'_>,
    fixities: &Fixities,
    wanted: &Wanted,
) -> Result<LongName, Stop>
    ensures { Reads (taken (behind_op fixities.now wanted.now) long_named) lexemes.old.rest.now
        result lexemes.new.rest.now }
{
    let Some(next) = lexemes.peek() else {
        return Err(Stop::Refused);
    };
    let Some(parts) = behind_op(next, fixities, wanted)? else {
        return Err(Stop::Refused);
    };
    lexemes.take();
    Ok(LongName {
        parts,
        line: next.line,
        col: next.col,
    })
}

/// Whether such a name stands next.
pub fn sees_operator(lexemes: &Lexemes<'_>, fixities: &Fixities, wanted: &Wanted) -> bool
    ensures { result ≡ begins (λ x. is_some (operator_in fixities.now wanted.now x))
        (head_or lexemes.now.rest.now None) }
{
    match lexemes.peek() {
        Some(next) => is_operator(next, fixities, wanted),
        None => false,
    }
}

/// Whether a name stands next behind which the head may end with one more pattern.
pub fn sees_bare(lexemes: &Lexemes<'_>, fixities: &Fixities, wanted: &Wanted) -> bool
    ensures { result ≡ begins (λ x. is_some (bare_operator fixities.now wanted.now x))
        (head_or lexemes.now.rest.now None) }
{
    match lexemes.peek() {
        Some(next) => wanted.may_be_bare(fixities) && is_operator(next, fixities, wanted),
        None => false,
    }
}

/// Whether a head begins with a lexeme.
pub fn starts_head(lexeme: &Lexeme, fixities: &Fixities, wanted: &Wanted) -> bool
    ensures { result ≡ starts_head fixities.now wanted.now lexeme.now }
{
    starts_atpat(fixities, lexeme) && starts_head_kind(&lexeme.kind, fixities, wanted)
}

/// Whether a head begins with a lexeme of this kind, where an atomic pattern does.
fn starts_head_kind(kind: &LexemeKind, fixities: &Fixities, wanted: &Wanted) -> bool
    ensures { result ≡ starts_head_kind fixities.now wanted.now kind.now }
{
    match kind {
        LexemeKind::Reserved(text) => match Word::of(text.as_bytes()) {
            Some(Word::Op) => true,
            Some(Word::Open) => wanted.may_be_infix(fixities),
            _ => wanted.may_be_bare(fixities),
        },
        LexemeKind::Name(parts) => {
            wanted.may_be_bare(fixities) || begins_with(parts.as_slice(), fixities, wanted, false)
        }
        LexemeKind::TyVar(_) => false,
        _ => wanted.may_be_bare(fixities),
    }
}

/// Whether a head of the first form may begin with a name of these parts.
fn begins_with(parts: &[Text], fixities: &Fixities, wanted: &Wanted, op: bool) -> bool
    ensures { result ≡ is_some (prefix_name fixities.now wanted.now op parts.now) }
{
    match parts {
        [text] => wanted.may_begin(fixities, op, text),
        _ => false,
    }
}

/// Takes the lexeme that a head begins with.
#[tactic(auto, using(phrase_reading::proofs::NameSteps::first_steps))]
pub fn first_of_head<'a>(
    lexemes: &mut Lexemes<'a>,
    fixities: &Fixities,
    wanted: &Wanted,
) -> Result<&'a Lexeme, Stop>
    ensures { MatchResult result
        (λ x. read (beginning (starts_head fixities.now wanted.now)) lexemes.old.rest.now
        ≡ Out.out (End.whole x.now) lexemes.new.rest.now)
        (λ why. Stops why (read (beginning (starts_head fixities.now wanted.now)) lexemes.old.rest.now)
        lexemes.new.rest.now) }
{
    let Some(first) = lexemes.peek() else {
        return Err(Stop::Refused);
    };
    if !starts_head(first, fixities, wanted) {
        return Err(Stop::Refused);
    }
    lexemes.take();
    Ok(first)
}
