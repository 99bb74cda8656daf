//! Where each group stands among those that have ended, and what it exports.

ghost use Rattle.std.specs.Prelude.{◌≡◌, ℕ, nat_eq, IfOk};
ghost use Rattle.std.specs.Option.{option_copied};
ghost use Rattle.indexmap.specs.IndexMap.{get};
ghost use Rattle.cm_base.specs.Places.{item_at};
ghost use Rattle.visibility.specs.Tables.{ArePlaces};

use cm_base::{List, NoMemory};
use cm_description::Export;
use indexmap::IndexMap;
use std::alloc::Global;

/// The place of each group, of several its first.
pub(crate) fn places_of(alloc: Global, finished: &[u32]) -> Result<IndexMap<u32, usize>, NoMemory>
    ensures { IfOk result (λ places. ArePlaces (get nat_eq places) finished.now) }
{
    let mut places = IndexMap::new(alloc);
    let mut rest = finished;
    while let Some((group, before)) = rest.split_last() {
        places.insert(*group, before.len())?;
        rest = before;
    }
    Ok(places)
}

/// What a group exports, where it has ended before.
pub(crate) fn exports_at<'a>(
    places: &IndexMap<u32, usize>,
    below: &'a List<List<Export>>,
    group: u32,
) -> Option<&'a List<Export>>
    ensures { option_copied result ≡ item_at below.now (get nat_eq places.now group) }
{
    match places.get(&group) {
        Some(place) => below.get(*place),
        None => None,
    }
}
