//! Skeletons of the names of a source.

ghost use Rattle.std.specs.Prelude.{◌≡◌, IfOk, map, take};
ghost use Rattle.cm_base.specs.Calls.{Answers, GivesSmall};
ghost use Rattle.capital_compilers.specs.CapitalSources.{capital_skeleton, named_skeleton, spot_of, use_of};

use crate::names::names_of;
use cm_base::{CompileFault, Diag, List, ModName, Namespace, Need, NoMemory, Skeleton, Spot, Text};
use std::alloc::Global;

/// The most structures that a source may use.
const MOST_USED: usize = 1_048_576;

/// As much of a name as counts.
fn front_of(name: &[u8]) -> &[u8]
    ensures { result.now ≡ take 255 name.now }
{
    if name.len() > 255 { &name[..255] } else { name }
}

/// The structure of a name.
fn spot_of(alloc: Global, name: &Text) -> Result<Spot, NoMemory>
    ensures { IfOk result (λ spot. spot ≡ spot_of name.now) }
{
    Ok(Spot {
        name: ModName {
            space: Namespace::Structure,
            name: Text::from_bytes(alloc, front_of(name.as_bytes()))?,
        },
        line: 1,
        col: 1,
    })
}

/// The use of a name's structure.
fn use_of(alloc: Global, name: &Text) -> Result<Need, NoMemory>
    ensures { IfOk result (λ need. need ≡ use_of name.now) }
{
    Ok(Need {
        spot: spot_of(alloc, name)?,
        sure: true,
    })
}

/// The uses of these names' structures.
fn uses_of(alloc: Global, names: &[Text]) -> Result<List<Need>, NoMemory>
    ensures { IfOk result (λ needs. needs ≡ map use_of names.now) }
{
    let mut needs = List::new(alloc);
    for name in names {
        needs.add(use_of(alloc, name)?)?;
    }
    Ok(needs)
}

/// The skeleton of these names: the first is defined and the others are used.
fn named_skeleton(alloc: Global, unit: &Text, names: &[Text]) -> Result<Skeleton, CompileFault>
    ensures answers { Answers result (named_skeleton unit.now names.now) }
    ensures small { GivesSmall result }
{
    let [name, used @ ..] = names else {
        return Err(CompileFault::Diag(Diag::on_file(alloc, 20, unit)?));
    };
    if used.len() > MOST_USED {
        return Err(CompileFault::Diag(Diag::on_file(alloc, 12, unit)?));
    }
    let mut defined = List::new(alloc);
    defined.add(spot_of(alloc, name)?)?;
    let free = uses_of(alloc, used)?;
    Ok(Skeleton { defined, free })
}

/// The skeleton of a source. It refuses one without a name, with 20, and one that uses too many, with 12.
pub(crate) fn capital_skeleton(
    alloc: Global,
    unit: &Text,
    source: &[u8],
) -> Result<Skeleton, CompileFault>
    ensures answers { Answers result (capital_skeleton unit.now source.now) }
    ensures small { GivesSmall result }
{
    let names = names_of(alloc, source)?;
    named_skeleton(alloc, unit, names.as_slice())
}
