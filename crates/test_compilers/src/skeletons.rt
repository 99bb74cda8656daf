//! Skeletons whose names are letters.

ghost use Rattle.std.specs.Prelude.{◌≡◌, IfOk, map};
ghost use Rattle.cm_base.specs.Calls.{Answers, GivesSmall};
ghost use Rattle.test_compilers.specs.LetterSkeletons.{letter_need, letter_skeleton, letter_spot};

use cm_base::{CompileFault, Diag, List, ModName, Namespace, Need, NoMemory, Skeleton, Spot, Text};
use std::alloc::Global;

/// The most structures that a source may use.
const MOST_USED: usize = 1_048_576;

/// The structure of a letter.
fn letter_spot(alloc: Global, letter: u8) -> Result<Spot, NoMemory>
    ensures { IfOk result (λ spot. spot ≡ letter_spot letter) }
{
    Ok(Spot {
        name: ModName {
            space: Namespace::Structure,
            name: Text::from_bytes(alloc, &[letter])?,
        },
        line: 1,
        col: 1,
    })
}

/// The use of a letter's structure.
fn letter_need(alloc: Global, letter: u8) -> Result<Need, NoMemory>
    ensures { IfOk result (λ need. need ≡ letter_need letter) }
{
    Ok(Need {
        spot: letter_spot(alloc, letter)?,
        sure: true,
    })
}

/// The uses of these letters' structures.
fn letter_needs(alloc: Global, letters: &[u8]) -> Result<List<Need>, NoMemory>
    ensures { IfOk result (λ needs. needs ≡ map letter_need letters.now) }
{
    let mut needs = List::new(alloc);
    for letter in letters {
        needs.add(letter_need(alloc, *letter)?)?;
    }
    Ok(needs)
}

/// The skeleton of a source that defines the structure of its first letter and uses those of the others. It refuses no
/// letters and a first one that is `!`, with 20, and too many, with 12.
pub(crate) fn letter_skeleton(
    alloc: Global,
    unit: &Text,
    letters: &[u8],
) -> Result<Skeleton, CompileFault>
    ensures answers { Answers result (letter_skeleton unit.now letters.now) }
    ensures small { GivesSmall result }
{
    let [letter, used @ ..] = letters else {
        return Err(CompileFault::Diag(Diag::on_file(alloc, 20, unit)?));
    };
    if *letter == b'!' {
        return Err(CompileFault::Diag(Diag::on_file(alloc, 20, unit)?));
    }
    if used.len() > MOST_USED {
        return Err(CompileFault::Diag(Diag::on_file(alloc, 12, unit)?));
    }
    let mut defined = List::new(alloc);
    defined.add(letter_spot(alloc, *letter)?)?;
    let free = letter_needs(alloc, used)?;
    Ok(Skeleton { defined, free })
}
