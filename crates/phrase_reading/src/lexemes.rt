//! The lexemes that are left to read.

ghost use Rattle.std.specs.Prelude.{◌≡◌, None, drop};
ghost use Rattle.std.specs.Option.{option_copied};
ghost use Rattle.grammars.specs.Grammar.{begins, head_or};
ghost use Rattle.phrase_reading.specs.Words.{is, is_star, is_tycon, token, name, label, field_label, tyvar, long, tycon};
ghost use Rattle.phrase_reading.specs.Reads.{Reads};

use crate::lexeme;
use crate::stop::Stop;
use sml_lexer::{Lexeme, Word};
use sml_trees::{LongName, Name};
use std::alloc::Global;

/// The label of a field in a record pattern, and whether it is a name.
#[derive(Drop)]
pub struct Label {
    pub name: Name,
    pub is_name: bool,
}

/// The lexemes that are left to read.
#[derive(Drop)]
pub struct Lexemes<'a> {
    pub rest: &'a [Lexeme],
}

impl<'a> Lexemes<'a> {
    /// The next lexeme, if there is one.
    pub fn peek(&self) -> Option<&'a Lexeme>
        ensures { option_copied result ≡ head_or self.now.rest.now None }
    {
        self.rest.first()
    }

    /// Takes the next lexeme, if there is one.
    pub fn take(&mut self)
        ensures { self.new.rest.now ≡ drop 1 self.old.rest.now }
    {
        if let Some((_, rest)) = self.rest.split_first() {
            self.rest = rest;
        }
    }

    /// Whether this reserved word or mark stands next.
    pub fn sees(&self, wanted: Word) -> bool
        ensures { result ≡ begins (is wanted) (head_or self.now.rest.now None) }
    {
        match self.peek() {
            Some(next) => lexeme::is(wanted, next),
            None => false,
        }
    }

    /// Whether the mark between the parts of a tuple type stands next.
    pub fn sees_star(&self) -> bool
        ensures { result ≡ begins is_star (head_or self.now.rest.now None) }
    {
        match self.peek() {
            Some(next) => lexeme::is_star(next),
            None => false,
        }
    }

    /// Whether a type constructor stands next.
    pub fn sees_tycon(&self) -> bool
        ensures { result ≡ begins is_tycon (head_or self.now.rest.now None) }
    {
        match self.peek() {
            Some(next) => lexeme::is_tycon(next),
            None => false,
        }
    }

    /// Takes this reserved word or mark, and refuses where another lexeme stands.
    #[tactic(auto, using(crate::proofs::Steps::token_steps))]
    pub fn expect(&mut self, wanted: Word) -> Result<(), Stop>
        ensures { Reads (token wanted) self.old.rest.now result self.new.rest.now }
    {
        if !self.sees(wanted) {
            return Err(Stop::Refused);
        }
        self.take();
        Ok(())
    }

    /// Takes a name without structures before it.
    #[tactic(auto, using(crate::proofs::Steps::taken_steps))]
    pub fn name(&mut self) -> Result<Name, Stop>
        ensures { Reads name self.old.rest.now result self.new.rest.now }
    {
        let Some(next) = self.peek() else {
            return Err(Stop::Refused);
        };
        let Some(text) = lexeme::name_of(next)? else {
            return Err(Stop::Refused);
        };
        self.take();
        Ok(Name {
            text,
            line: next.line,
            col: next.col,
        })
    }

    /// Takes a record label.
    #[tactic(auto, using(crate::proofs::Steps::taken_steps))]
    pub fn label(&mut self, alloc: Global) -> Result<Name, Stop>
        ensures { Reads label self.old.rest.now result self.new.rest.now }
    {
        let Some(next) = self.peek() else {
            return Err(Stop::Refused);
        };
        let Some(text) = lexeme::label_of(alloc, next)? else {
            return Err(Stop::Refused);
        };
        self.take();
        Ok(Name {
            text,
            line: next.line,
            col: next.col,
        })
    }

    /// Takes the label of a field in a record pattern.
    #[tactic(auto, using(crate::proofs::Steps::taken_steps))]
    pub fn field_label(&mut self, alloc: Global) -> Result<Label, Stop>
        ensures { Reads field_label self.old.rest.now result self.new.rest.now }
    {
        let Some(next) = self.peek() else {
            return Err(Stop::Refused);
        };
        let Some(text) = lexeme::label_of(alloc, next)? else {
            return Err(Stop::Refused);
        };
        self.take();
        Ok(Label {
            name: Name {
                text,
                line: next.line,
                col: next.col,
            },
            is_name: lexeme::is_name(next),
        })
    }

    /// Takes a type variable.
    #[tactic(auto, using(crate::proofs::Steps::taken_steps))]
    pub fn tyvar(&mut self) -> Result<Name, Stop>
        ensures { Reads tyvar self.old.rest.now result self.new.rest.now }
    {
        let Some(next) = self.peek() else {
            return Err(Stop::Refused);
        };
        let Some(text) = lexeme::tyvar_of(next)? else {
            return Err(Stop::Refused);
        };
        self.take();
        Ok(Name {
            text,
            line: next.line,
            col: next.col,
        })
    }

    /// Takes a name, with structures before it or without.
    #[tactic(auto, using(crate::proofs::Steps::taken_steps))]
    pub fn long(&mut self) -> Result<LongName, Stop>
        ensures { Reads long self.old.rest.now result self.new.rest.now }
    {
        let Some(next) = self.peek() else {
            return Err(Stop::Refused);
        };
        let Some(parts) = lexeme::long_of(next)? else {
            return Err(Stop::Refused);
        };
        self.take();
        Ok(LongName {
            parts,
            line: next.line,
            col: next.col,
        })
    }

    /// Takes a type constructor.
    #[tactic(auto, using(crate::proofs::Steps::taken_steps))]
    pub fn tycon(&mut self) -> Result<LongName, Stop>
        ensures { Reads tycon self.old.rest.now result self.new.rest.now }
    {
        let Some(next) = self.peek() else {
            return Err(Stop::Refused);
        };
        let Some(parts) = lexeme::tycon_of(next)? else {
            return Err(Stop::Refused);
        };
        self.take();
        Ok(LongName {
            parts,
            line: next.line,
            col: next.col,
        })
    }
}
