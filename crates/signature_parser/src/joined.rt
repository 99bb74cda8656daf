//! Phrases behind which an `and` of the phrase around may have been taken.

ghost use Rattle.std.specs.Prelude.{◌≡◌, IfOk};
ghost use Rattle.phrase_reading.specs.Reads.{Reads};
ghost use Rattle.signature_parser.specs.Joined.{apart, alone_of, joined_one, joined_more};
ghost use Rattle.signature_parser.specs.Bound.{next_name};

use crate::names::{module_name, sees_module_name};
use cm_base::{List, NoMemory};
use phrase_reading::lexemes::Lexemes;
use phrase_reading::stop::Stop;
use phrase_reading::tall::{Tall, more, one};
use sml_lexer::Word;
use sml_trees::Name;
use std::alloc::Global;

/// A phrase with its height, and whether an `and` of the phrase around was taken behind it.
#[derive(Debug, Drop)]
pub struct Joined<T> {
    pub made: Tall<T>,
    pub joined: bool,
}

/// A phrase behind which no `and` was taken.
pub fn apart<T: Drop>(made: Tall<T>) -> Joined<T>
    ensures { result ≡ apart made }
{
    Joined {
        made,
        joined: false,
    }
}

/// A phrase behind which no `and` may have been taken, since the phrase around has no further bindings.
pub fn alone<T: Drop>(lexemes: &Lexemes<'_>, found: Joined<T>) -> Result<Tall<T>, Stop>
    ensures { Reads (alone_of found) lexemes.now.rest.now result lexemes.now.rest.now }
{
    if found.joined {
        return Err(Stop::Refused);
    }
    Ok(found.made)
}

/// One binding of several.
pub fn joined_one<T: Drop>(alloc: Global, first: Joined<T>) -> Result<Joined<List<T>>, NoMemory>
    ensures { IfOk result (λ found. found ≡ joined_one first) }
{
    Ok(Joined {
        made: one(alloc, first.made)?,
        joined: first.joined,
    })
}

/// The bindings and one more.
pub fn joined_more<T: Drop>(
    found: Joined<List<T>>,
    next: Joined<T>,
) -> Result<Joined<List<T>>, NoMemory>
    ensures { IfOk result (λ all. all ≡ joined_more found next) }
{
    Ok(Joined {
        made: more(found.made, next.made)?,
        joined: next.joined,
    })
}

/// The name of another binding, if one goes on: behind an `and`, which may have been taken already.
#[tactic(auto, using(crate::proofs::BoundSteps::next_name_steps))]
pub fn next_name(lexemes: &mut Lexemes<'_>, joined: bool) -> Result<Option<Name>, Stop>
    ensures { Reads (next_name joined) lexemes.old.rest.now result lexemes.new.rest.now }
{
    if joined {
        if !sees_module_name(lexemes) {
            return Ok(None);
        }
        return Ok(Some(module_name(lexemes)?));
    }
    if !lexemes.sees(Word::And) {
        return Ok(None);
    }
    lexemes.take();
    Ok(Some(module_name(lexemes)?))
}
