//! Type constructors behind their one argument.

ghost use Rattle.std.specs.Prelude.{◌≡◌, ◌≤◌, ◌<◌, None, true, length, IfOk, OnOk};
ghost use Rattle.grammars.specs.Grammar.{begins, head_or};
ghost use Rattle.phrase_reading.specs.Words.{is_tycon};
ghost use Rattle.phrase_reading.specs.Reads.{Reads};
ghost use Rattle.core_types.specs.Types.{applied, constructor};

use cm_base::Boxed;
use phrase_reading::lexemes::Lexemes;
use phrase_reading::stop::Stop;
use phrase_reading::tall::Tall;
use sml_trees::{At, FullTy};
use std::alloc::Global;

/// Type constructors behind their one argument.
#[tactic(auto, using(crate::proofs::TypeSteps::applied_steps))]
pub fn applied(
    alloc: Global,
    lexemes: &mut Lexemes<'_>,
    place: At,
    first: Tall<FullTy>,
    levels: u32,
) -> Result<Tall<FullTy>, Stop>
    requires { first.height ≤ levels }
    ensures reads { Reads (applied levels place first) lexemes.old.rest.now result lexemes.new.rest.now }
    ensures low { IfOk result (λ made. made.height ≤ levels) }
{
    let mut left = first;
    while lexemes.sees_tycon() {
        left = constructor(alloc, lexemes, place, left, levels)?;
    }
    Ok(left)
}

/// One more type constructor, whose argument stands before it.
#[tactic(auto, using(crate::proofs::TypeSteps::constructor_steps))]
fn constructor(
    alloc: Global,
    lexemes: &mut Lexemes<'_>,
    place: At,
    left: Tall<FullTy>,
    levels: u32,
) -> Result<Tall<FullTy>, Stop>
    requires low { left.height ≤ levels }
    requires sees { begins is_tycon (head_or lexemes.old.rest.now None) ≡ true }
    ensures reads { Reads (constructor levels place left) lexemes.old.rest.now result lexemes.new.rest.now }
    ensures low { IfOk result (λ made. made.height ≤ levels) }
    ensures shorter { OnOk result (length lexemes.new.rest.now < length lexemes.old.rest.now) }
{
    if left.height == levels {
        lexemes.take();
        return Err(Stop::TooDeep);
    }
    let long = lexemes.tycon()?;
    Ok(Tall {
        tree: FullTy::Applied(Boxed::new(alloc, left.tree)?, long, place),
        height: left.height + 1,
    })
}
