//! Where the last binding of each name stands.

ghost use Rattle.std.specs.Prelude.{◌≡◌, ◌≤◌, length, take};
ghost use Rattle.name_trails.specs.Places.{links_of, place_in, IsPlaced, Notes};

use cm_base::Text;
use indexmap::IndexMap;

/// Where the last binding of a name stands.
pub(crate) fn place_of(last: &IndexMap<Text, Option<usize>>, name: &Text) -> Option<usize>
    ensures { result ≡ place_in last.now name.now }
{
    match last.get(name) {
        Some(place) => *place,
        None => None,
    }
}

/// Notes where the last binding of a name stands, if the table knows the name.
fn note(last: &mut IndexMap<Text, Option<usize>>, name: &Text, place: Option<usize>)
    ensures { Notes last.old last.new name.now place }
{
    if let Some(held) = last.get_mut(name) {
        *held = place;
    }
}

/// Takes the rows from a place on out of the table, the last one first.
pub(crate) fn forget<T>(
    last: &mut IndexMap<Text, Option<usize>>,
    rows: &[(Text, T)],
    links: &[Option<usize>],
    start: usize,
)
    requires placed { IsPlaced last.old rows.now }
    requires linked { links.now ≡ links_of rows.now }
    requires within { start ≤ length rows.now }
    ensures { IsPlaced last.new (take start rows.now) }
{
    let mut at = rows.len();
    while at > start {
        at -= 1;
        note(last, &rows[at].0, links[at]);
    }
}
