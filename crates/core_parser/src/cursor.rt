//! Cursors: a place in the lexemes of a source, and what is known there.

ghost use Rattle.std.specs.Prelude.{◌≡◌, ◌++◌, ◌∷◌, ◌<◌, ◌≤◌, ◌-◌, [], None, drop, length, IfOk, OnOk, OnErr};
ghost use Rattle.std.specs.Option.{option_copied};
ghost use Rattle.grammars.specs.Grammar.{head_or};
ghost use Rattle.core_parser.specs.Cursors.{state, at_first, before, under, scoped, begun, mark_last, Closes};

use crate::failure::Failure;
use cm_base::{List, NoMemory, Text};
use infix_names::fixity::Fixities;
use sml_lexer::Lexeme;
use std::alloc::Global;

/// A scope of infix status: how many entries stood before it, and how many at its mark, if it has one.
#[derive(Clone, Copy, Debug)]
pub struct Scope {
    pub start: usize,
    pub kept: Option<usize>,
}

/// A place in the lexemes of a source, with the infix status of names there. Contracts see what `state` says of it.
#[derive(Drop)]
pub struct Cursor {
    pub alloc: Global,
    pub file: Text,
    pub lexemes: List<Lexeme>,
    pub taken: usize,
    pub fixities: Fixities,
    pub scopes: Vec<Scope>,
    pub nest: u32,
    pub failed: Option<Failure>,
}

/// How many scopes there are.
fn depth(scopes: &Vec<Scope>) -> usize
    ensures { result ≡ length scopes.now.items }
{
    scopes.len()
}

impl Cursor {
    /// A cursor at the first lexeme of a file, where the infix names are those of the initial basis.
    pub fn new(alloc: Global, file: &Text, lexemes: List<Lexeme>) -> Result<Cursor, NoMemory>
        ensures { IfOk result (λ cursor. state cursor ≡ at_first file.now lexemes) }
    {
        Ok(Cursor {
            alloc,
            file: file.copy()?,
            lexemes,
            taken: 0,
            fixities: Fixities::initial(alloc)?,
            scopes: Vec::new(alloc),
            nest: 0,
            failed: None,
        })
    }

    /// The lexeme at the cursor's place, and `None` exactly past the last one.
    #[tactic(auto, using(crate::proofs::CursorSteps::get_head))]
    pub fn peek(&self) -> Option<&Lexeme>
        ensures { option_copied result ≡ head_or (state self.now).rest None }
    {
        self.lexemes.get(self.taken)
    }

    /// Goes on behind the lexeme at the cursor's place. Past the last one it changes nothing.
    #[tactic(auto, using(crate::proofs::CursorSteps::advance_steps))]
    pub fn advance(&mut self)
        ensures { state self.new ≡ before (drop 1 (state self.old).rest) (state self.old) }
    {
        if self.taken < self.lexemes.len() {
            self.taken += 1;
        }
    }

    /// Begins a scope of infix status. Want of memory leaves all as it was.
    pub fn open_scope(&mut self) -> Result<(), NoMemory>
        ensures ok { OnOk result (state self.new
            ≡ scoped self.old.fixities (self.old.scopes.items ++ begun self.old.fixities ∷ []) (state self.old)) }
        ensures err { OnErr result (state self.new ≡ state self.old) }
    {
        let start = self.fixities.len();
        self.scopes.push(Scope { start, kept: None })?;
        Ok(())
    }

    /// Ends the innermost scope: its infix status ends, but for what was declared behind its mark.
    pub fn close_scope(&mut self)
        requires { 0 < length self.old.scopes.items }
        ensures { Closes (state self.old) (state self.new) }
    {
        let Some(scope) = self.scopes.pop() else {
            return;
        };
        match scope.kept {
            Some(kept) => self.fixities.keep(scope.start, kept),
            None => self.fixities.truncate(scope.start),
        }
    }

    /// Marks the `in` of a `local`: what is declared behind it in the innermost scope holds on after that scope.
    pub fn keep_rest(&mut self)
        requires { 0 < length self.old.scopes.items }
        ensures { state self.new
            ≡ scoped self.old.fixities (mark_last self.old.fixities self.old.scopes.items) (state self.old) }
    {
        let kept = self.fixities.len();
        let last = depth(&self.scopes) - 1;
        self.scopes[last].kept = Some(kept);
    }

    /// Sets how many levels are open around the cursor's place.
    pub fn nest(&mut self, levels: u32)
        requires { levels ≤ 128 }
        ensures { state self.new ≡ under levels (state self.old) }
    {
        self.nest = levels;
    }

    /// How many levels are left at the cursor's place.
    pub fn levels(&self) -> u32
        ensures { result ≡ 128 - self.now.nest }
    {
        128u32.saturating_sub(self.nest)
    }
}
