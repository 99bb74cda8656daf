//! From a source to its skeleton, or to its first diagnostic.

ghost use Rattle.std.specs.Prelude.{◌≡◌, ◌<◌, ◌≤◌, ◌^◌, length, IfOk, IsTrue, All, Ok};
ghost use Rattle.cm_base.specs.Calls.{Answers, IsSmallSpot, IsSmallSkeleton, GivesSmall};
ghost use Rattle.skeletons.specs.Skeletons.{skeleton_of};
ghost use Rattle.unit_compiling.specs.Compiled.{bare_of_source};
ghost use Rattle.sml_compiler.specs.Front.{skeleton_definition};

use crate::fault::told;
use cm_base::{CompileFault, List, Need, NoMemory, Skeleton, Spot, Text};
use sml_trees::BareUnit;
use std::alloc::Global;
use unit_compiling::{UnitCompiler, bare_of_source};

/// The greatest number of names in a list of a skeleton.
const MAX_NAMES: usize = 1_048_576;

/// The greatest length of a name.
const MAX_NAME: usize = 255;

/// Whether a name at a place is small; a place always is.
fn is_small(name: &Text, line: u32, col: u32) -> bool
    ensures { IsTrue result → (length name.now ≤ 255) × (line < 2 ^ 32) × (col < 2 ^ 32) }
{
    name.as_bytes().len() <= MAX_NAME
}

/// Whether a name at its place is small.
fn is_small_spot(spot: &Spot) -> bool
    ensures { IsTrue result → IsSmallSpot spot.now }
{
    is_small(&spot.name.name, spot.line, spot.col)
}

/// Whether the names that a unit defines are few and small.
fn are_small_spots(spots: &List<Spot>) -> bool
    ensures few { IsTrue result → length spots.now ≤ 1048576 }
    ensures small { IsTrue result → All IsSmallSpot spots.now }
{
    if spots.len() > MAX_NAMES {
        return false;
    }
    for spot in spots.as_slice() {
        if !is_small_spot(spot) {
            return false;
        }
    }
    true
}

/// Whether the names that a unit uses are few and small.
fn are_small_needs(needs: &List<Need>) -> bool
    ensures few { IsTrue result → length needs.now ≤ 1048576 }
    ensures small { IsTrue result → All (λ need. IsSmallSpot need.spot) needs.now }
{
    if needs.len() > MAX_NAMES {
        return false;
    }
    for need in needs.as_slice() {
        if !is_small_spot(&need.spot) {
            return false;
        }
    }
    true
}

/// The skeleton of a bare unit, where it is small, and else want of memory. The skeleton of a source is always small,
/// since the lexer refuses longer sources and longer names; but that isn't proved.
fn small_skeleton(alloc: Global, unit: &BareUnit) -> Result<Skeleton, NoMemory>
    ensures made { IfOk result (λ made. made ≡ skeleton_of unit.now) }
    ensures small { IfOk result IsSmallSkeleton }
{
    let made = skeletons::skeleton(alloc, unit)?;
    if are_small_spots(&made.defined) && are_small_needs(&made.free) {
        Ok(made)
    } else {
        Err(NoMemory)
    }
}

/// The skeleton of the bare unit of a source, which is kept until the unit is compiled.
fn skeleton_of_bare(
    alloc: Global,
    units: &mut UnitCompiler,
    unit: &Text,
    source: &Text,
    bare: BareUnit,
) -> Result<Skeleton, CompileFault>
    requires { bare_of_source unit.now source.now ≡ Ok bare }
    ensures answer { Answers result (skeleton_definition unit.now source.now) }
    ensures small { GivesSmall result }
{
    let skeleton = small_skeleton(alloc, &bare)?;
    units.keep(unit, source, bare)?;
    Ok(skeleton)
}

/// The skeleton of a source of the whole language. It refuses with the first of these that there is: 12 for a source
/// of more than 1,048,576 bytes; the lexer's diagnostic, which is 20, 39, or 12 for a name of more than 255 bytes; the
/// parser's, which is 20, 21, or 12 for too many levels; and 40 or 12 for the bare tree.
pub fn skeleton(
    alloc: Global,
    units: &mut UnitCompiler,
    unit: &Text,
    source: &Text,
) -> Result<Skeleton, CompileFault>
    ensures answer { Answers result (skeleton_definition unit.now source.now) }
    ensures small { GivesSmall result }
{
    match bare_of_source(alloc, unit, source) {
        Ok(bare) => skeleton_of_bare(alloc, units, unit, source, bare),
        Err(fault) => Err(told(fault)),
    }
}
