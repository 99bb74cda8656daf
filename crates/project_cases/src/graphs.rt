//! What has to hold of a graph before its order is asked for, as tests.

ghost use Rattle.std.specs.Prelude.{◌≡◌, ℕ, true, ◌<◌, All, length};
ghost use Rattle.std.specs.Cmp.Lexicographic.{slice_cmp};
ghost use Rattle.std.specs.Ordering.{is_lt, nat_cmp};
ghost use Rattle.dependency_graph.specs.Order.{AllAreUnits, AllDiffer, name_of};

use cm_base::{List, Text};

/// The units are one, or have two names.
fn is_apart(names: &[Text], unit: usize, other: usize) -> bool
    requires known { unit < length names.now }
    requires named { other < length names.now }
    ensures { result ≡ true → name_of names.now unit ≡ name_of names.now other → unit ≡ other }
{
    unit == other || names[unit] != names[other]
}

/// No other unit has this one's name.
fn is_only(names: &[Text], unit: usize) -> bool
    requires { unit < length names.now }
    ensures { result ≡ true → (other : ℕ) → other < length names.now →
        name_of names.now unit ≡ name_of names.now other → unit ≡ other }
{
    for other in 0..names.len() {
        if !is_apart(names, unit, other) {
            return false;
        }
    }
    true
}

/// No two units have one name.
fn all_differ(names: &[Text]) -> bool
    ensures { result ≡ true → AllDiffer names.now }
{
    for unit in 0..names.len() {
        if !is_only(names, unit) {
            return false;
        }
    }
    true
}

/// The first unit's name stands before the other's.
fn is_before(names: &[Text], unit: usize, other: usize) -> bool
    requires known { unit < length names.now }
    requires named { other < length names.now }
    ensures { result ≡ is_lt (slice_cmp nat_cmp (name_of names.now unit) (name_of names.now other)) }
{
    names[unit].cmp(&names[other]).is_lt()
}

/// Each name stands before the next.
fn all_rise(names: &[Text]) -> bool
    ensures { result ≡ true → AllDiffer names.now }
{
    for unit in 1..names.len() {
        match is_before(names, unit - 1, unit) {
            true => {}
            false => return false,
        }
    }
    true
}

/// Each number of a list is below the count.
fn all_below(list: &[u32], count: usize) -> bool
    ensures { result ≡ true → All (λ unit. unit < count) list.now }
{
    for unit in list {
        if *unit as usize >= count {
            return false;
        }
    }
    true
}

/// Each provider is a unit.
pub fn all_are_units(edges: &[List<u32>]) -> bool
    ensures { result ≡ true → AllAreUnits edges.now }
{
    for list in edges {
        if !all_below(list.as_slice(), edges.len()) {
            return false;
        }
    }
    true
}

/// No two units have one name. Names that rise are looked at once.
pub fn are_apart(names: &[Text]) -> bool
    ensures { result ≡ true → AllDiffer names.now }
{
    all_rise(names) || all_differ(names)
}
