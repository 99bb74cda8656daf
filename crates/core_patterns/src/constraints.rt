//! Types that constrain patterns.

ghost use Rattle.std.specs.Prelude.{◌≡◌, ◌-◌, ◌≤◌, ◌<◌, IfOk};
ghost use Rattle.phrase_reading.specs.Reads.{Reads};
ghost use Rattle.core_types.specs.Types.{ty};
ghost use Rattle.core_patterns.specs.Patterns.{typed, constrained};

use cm_base::Boxed;
use core_types::types::ty;
use phrase_reading::lexemes::Lexemes;
use phrase_reading::stop::Stop;
use phrase_reading::tall::Tall;
use sml_lexer::Word;
use sml_trees::{At, FullPat};
use std::alloc::Global;

/// A pattern and the types that constrain it, each behind a colon.
#[tactic(auto, using(crate::proofs::PatSteps::typed_steps))]
pub fn typed(
    alloc: Global,
    lexemes: &mut Lexemes<'_>,
    place: At,
    first: Tall<FullPat>,
    levels: u32,
) -> Result<Tall<FullPat>, Stop>
    requires { first.height ≤ levels }
    ensures reads { Reads (typed levels (ty (levels - 1)) place first) lexemes.old.rest.now result lexemes.new.rest.now }
    ensures low { IfOk result (λ made. made.height ≤ levels) }
{
    let mut left = first;
    while lexemes.sees(Word::Colon) {
        lexemes.take();
        left = constrained(alloc, lexemes, place, left, levels)?;
    }
    Ok(left)
}

/// One more type that constrains what stands before it, behind the colon.
#[tactic(auto, using(crate::proofs::PatSteps::constrained_steps))]
fn constrained(
    alloc: Global,
    lexemes: &mut Lexemes<'_>,
    place: At,
    left: Tall<FullPat>,
    levels: u32,
) -> Result<Tall<FullPat>, Stop>
    requires { left.height ≤ levels }
    ensures reads { Reads (constrained levels (ty (levels - 1)) place left) lexemes.old.rest.now
        result lexemes.new.rest.now }
    ensures low { IfOk result (λ made. made.height ≤ levels) }
{
    if left.height == levels {
        return Err(Stop::TooDeep);
    }
    let found = ty(alloc, lexemes, levels - 1)?;
    Ok(Tall {
        tree: FullPat::Typed(Boxed::new(alloc, left.tree)?, found.tree, place),
        height: left.height.max(found.height) + 1,
    })
}
