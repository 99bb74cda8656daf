//! Patterns of rules and bindings, behind their first lexeme.

ghost use Rattle.std.specs.Prelude.{◌≡◌, MatchResult};
ghost use Rattle.grammars.specs.Grammar.{End};
ghost use Rattle.grammars.specs.Reading.{Out, read};
ghost use Rattle.core_expressions.specs.Expressions.{starts_pat};
ghost use Rattle.phrase_reading.specs.Names.{beginning};
ghost use Rattle.core_expressions.specs.Levels.{level};
ghost use Rattle.phrase_reading.specs.Reads.{Stops, Reads};

use core_patterns::pat_starts::starts_atpat;
use core_patterns::patterns::pat_behind;
use infix_names::fixity::Fixities;
use phrase_reading::lexemes::Lexemes;
use phrase_reading::stop::Stop;
use phrase_reading::tall::Tall;
use sml_lexer::Lexeme;
use sml_trees::FullPat;
use std::alloc::Global;

/// Takes the first lexeme of a pattern.
#[tactic(auto, using(phrase_reading::proofs::NameSteps::first_steps))]
pub fn first_of_pat<'a>(lexemes: &mut Lexemes<'a>, fixities: &Fixities) -> Result<&'a Lexeme, Stop>
    ensures { MatchResult result
        (λ x. read (beginning (starts_pat fixities.now)) lexemes.old.rest.now
        ≡ Out.out (End.whole x.now) lexemes.new.rest.now)
        (λ why. Stops why (read (beginning (starts_pat fixities.now)) lexemes.old.rest.now) lexemes.new.rest.now) }
{
    let Some(first) = lexemes.peek() else {
        return Err(Stop::Refused);
    };
    if !starts_atpat(fixities, first) {
        return Err(Stop::Refused);
    }
    lexemes.take();
    Ok(first)
}

/// A pattern of at most so many levels, behind its first lexeme.
pub fn pat_after(
    alloc: Global,
    lexemes: &mut Lexemes<'_>,
    fixities: &Fixities,
    levels: u32,
    start: &Lexeme,
) -> Result<Tall<FullPat>, Stop>
    ensures { Reads ((level levels).pat_after fixities.now start.now) lexemes.old.rest.now result lexemes.new.rest.now }
{
    pat_behind(alloc, lexemes, fixities, start, levels)
}
