//! What a build asks of its project, as tests, and the order of its units.

ghost use Rattle.std.specs.Prelude.{◌≡◌, ℕ, true, ◌<◌, ◌^◌, All, IfOk, IfSome, length};
ghost use Rattle.std.specs.Cmp.Lexicographic.{slice_cmp};
ghost use Rattle.std.specs.Ordering.{is_lt, nat_cmp};
ghost use Rattle.dependency_graph.specs.Order.{AllAreUnits, AllDiffer, name_of};
ghost use Rattle.skeleton_asking.specs.Short.{IsShortSkeleton};
ghost use Rattle.cutoff_builder.specs.Small.{AreShortNames, IsShortBody, IsShortUnit};

use cm_base::{List, NoMemory, Skeleton, Text};
use cm_description::{Unit, UnitBody, Wanted};
use dependency_graph::{OrderFault, UnitOrder, order};
use std::alloc::Global;

/// The units are one, or have two names.
fn is_apart(names: &[Text], unit: usize, other: usize) -> bool
    requires known { unit < length names.now }
    requires named { other < length names.now }
    ensures { result ≡ true → name_of names.now unit ≡ name_of names.now other → unit ≡ other }
{
    unit == other || names[unit] != names[other]
}

/// No other unit has this one's name.
fn is_only(names: &[Text], unit: usize) -> bool
    requires { unit < length names.now }
    ensures { result ≡ true → (other : ℕ) → other < length names.now →
        name_of names.now unit ≡ name_of names.now other → unit ≡ other }
{
    for other in 0..names.len() {
        if !is_apart(names, unit, other) {
            return false;
        }
    }
    true
}

/// No two units have one name.
fn all_differ(names: &[Text]) -> bool
    ensures { result ≡ true → AllDiffer names.now }
{
    for unit in 0..names.len() {
        if !is_only(names, unit) {
            return false;
        }
    }
    true
}

/// The first unit's name stands before the other's.
fn is_before(names: &[Text], unit: usize, other: usize) -> bool
    requires known { unit < length names.now }
    requires named { other < length names.now }
    ensures { result ≡ is_lt (slice_cmp nat_cmp (name_of names.now unit) (name_of names.now other)) }
{
    names[unit].cmp(&names[other]).is_lt()
}

/// Each name stands before the next.
fn all_rise(names: &[Text]) -> bool
    ensures { result ≡ true → AllDiffer names.now }
{
    for unit in 1..names.len() {
        match is_before(names, unit - 1, unit) {
            true => {}
            false => return false,
        }
    }
    true
}

/// Each number of a list is below the count.
fn all_below(list: &[u32], count: usize) -> bool
    ensures { result ≡ true → All (λ unit. unit < count) list.now }
{
    for unit in list {
        if *unit as usize >= count {
            return false;
        }
    }
    true
}

/// Each provider is a unit.
fn all_are_units(edges: &[List<u32>]) -> bool
    ensures { result ≡ true → AllAreUnits edges.now }
{
    for list in edges {
        if !all_below(list.as_slice(), edges.len()) {
            return false;
        }
    }
    true
}

/// The providers of wanted names are below the count.
fn all_wanted_below(wanted: &[Wanted], count: usize) -> bool
    ensures { result ≡ true → All (λ wanted. wanted.provider < count) wanted.now }
{
    for name in wanted {
        if name.provider as usize >= count {
            return false;
        }
    }
    true
}

/// The providers of all wanted names are below the count.
pub fn are_below(wanted: &[List<Wanted>], count: usize) -> bool
    ensures { result ≡ true → All (λ list. All (λ wanted. wanted.provider < count) list) wanted.now }
{
    for list in wanted {
        if !all_wanted_below(list.as_slice(), count) {
            return false;
        }
    }
    true
}

/// Each name is shorter than 2^32 bytes.
fn all_short(wanted: &[Wanted]) -> bool
    ensures { result ≡ true → All (λ wanted. length wanted.name.name < 2 ^ 32) wanted.now }
{
    for name in wanted {
        if name.name.name.as_bytes().len() >= 1 << 32 {
            return false;
        }
    }
    true
}

/// There are fewer than 2^32 names, and each is shorter.
fn is_short_list(wanted: &[Wanted]) -> bool
    ensures { result ≡ true → AreShortNames wanted.now }
{
    wanted.len() < 1 << 32 && all_short(wanted)
}

/// All lists of wanted names are short.
pub fn are_short(wanted: &[List<Wanted>]) -> bool
    ensures { result ≡ true → All AreShortNames wanted.now }
{
    for list in wanted {
        if !is_short_list(list.as_slice()) {
            return false;
        }
    }
    true
}

/// A source is shorter than 2^32 bytes.
fn is_short_body(body: &UnitBody) -> bool
    ensures { result ≡ true → IsShortBody body.now }
{
    match body {
        UnitBody::Source { options: _, source } => source.as_bytes().len() < 1 << 32,
        UnitBody::Frozen { .. } => true,
    }
}

/// A unit's name and its source are shorter than 2^32 bytes.
fn is_short_unit(unit: &Unit) -> bool
    ensures { result ≡ true → IsShortUnit unit.now }
{
    if unit.name.as_bytes().len() >= 1 << 32 {
        return false;
    }
    is_short_body(&unit.body)
}

/// All names and sources are short.
pub fn are_short_units(units: &[Unit]) -> bool
    ensures { result ≡ true → All IsShortUnit units.now }
{
    for unit in units {
        if !is_short_unit(unit) {
            return false;
        }
    }
    true
}

/// A skeleton has no name.
#[tactic(auto, using(crate::proofs::Short::empty_is_short))]
fn is_empty(skeleton: &Skeleton) -> bool
    ensures { result ≡ true → IsShortSkeleton skeleton.now }
{
    skeleton.defined.is_empty() && skeleton.free.is_empty()
}

/// No skeleton has a name.
pub fn are_empty(skeletons: &[Skeleton]) -> bool
    ensures { result ≡ true → All IsShortSkeleton skeletons.now }
{
    for skeleton in skeletons {
        if !is_empty(skeleton) {
            return false;
        }
    }
    true
}

/// No two units have one name. Names that rise are looked at once.
fn are_apart(names: &[Text]) -> bool
    ensures { result ≡ true → AllDiffer names.now }
{
    all_rise(names) || all_differ(names)
}

/// The order of units, where their names differ, each provider is one of them, and there is no cycle.
pub fn order_of(
    alloc: Global,
    names: &List<Text>,
    edges: &List<List<u32>>,
) -> Result<Option<UnitOrder>, NoMemory>
    ensures { IfOk result (λ order. IfSome order (λ order. length order ≡ length names.now)) }
{
    if names.len() >= 1 << 32
        || edges.len() != names.len()
        || !all_are_units(edges.as_slice())
        || !are_apart(names.as_slice())
    {
        return Ok(None);
    }
    match order(alloc, names, edges) {
        Ok(order) => Ok(Some(order)),
        Err(OrderFault::Cycle(_)) => Ok(None),
        Err(OrderFault::NoMemory) => Err(NoMemory),
    }
}
