//! Where the last entry of each name stands, so that its infix status is looked up and not sought.

ghost use Rattle.std.specs.Prelude.{◌≡◌, ◌≤◌, length, take};
ghost use Rattle.infix_names.specs.FixityTables.{links_of, place_in, HasAll, HasTheSame, IsPlaced, Notes};

use crate::fixity::Status;
use cm_base::Text;
use indexmap::IndexMap;

/// Where the last entry of a name stands.
pub fn place_of(last: &IndexMap<Text, Option<usize>>, name: &Text) -> Option<usize>
    ensures { result ≡ place_in last.now name.now }
{
    match last.get(name) {
        Some(place) => *place,
        None => None,
    }
}

/// Notes where the last entry of a name stands, if the table has something of it.
fn note(last: &mut IndexMap<Text, Option<usize>>, name: &Text, place: Option<usize>)
    ensures { Notes last.old last.new name.now place }
{
    if let Some(held) = last.get_mut(name) {
        *held = place;
    }
}

/// Takes the entries from a place on out of the table, the last one first.
pub fn forget(
    last: &mut IndexMap<Text, Option<usize>>,
    entries: &[Status],
    links: &[Option<usize>],
    start: usize,
)
    requires placed { IsPlaced last.old entries.now }
    requires linked { links.now ≡ links_of entries.now }
    requires within { start ≤ length entries.now }
    ensures placed { IsPlaced last.new (take start entries.now) }
    ensures same { HasTheSame last.old last.new }
{
    let mut at = entries.len();
    while at > start {
        at -= 1;
        note(last, &entries[at].name, links[at]);
    }
}

/// Puts the entries from a place on into the table, which has something of each name, and links them anew.
pub fn recall(
    last: &mut IndexMap<Text, Option<usize>>,
    entries: &[Status],
    links: &mut [Option<usize>],
    start: usize,
)
    requires placed { IsPlaced last.old (take start entries.now) }
    requires linked { take start links.old ≡ links_of (take start entries.now) }
    requires as_long { length links.old ≡ length entries.now }
    requires known { HasAll last.old entries.now }
    requires within { start ≤ length entries.now }
    ensures placed { IsPlaced last.new entries.now }
    ensures linked { links.new ≡ links_of entries.now }
{
    for at in start..entries.len() {
        let name = &entries[at].name;
        links[at] = place_of(last, name);
        note(last, name, Some(at));
    }
}
