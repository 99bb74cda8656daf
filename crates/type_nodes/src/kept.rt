//! What is kept of some places, where there is memory for it.

ghost use Rattle.std.specs.Prelude.{◌≡◌, ◌<◌, ◌⊎◌, ℕ, length, slice_get, Some, true};

/// Makes room for a place. Where memory is wanting there is none.
fn make_room<T: Copy + Drop>(items: &mut Vec<Option<T>>, at: usize) -> bool
    ensures room { result ≡ true → at < length items.new.items }
    ensures same { (p : ℕ) (x : T) → slice_get items.new.items p ≡ Some (Some x) → slice_get items.old.items p ≡ Some (Some x) }
{
    while items.len() <= at {
        if items.push(None).is_err() {
            return false;
        }
    }
    true
}

/// What is kept of a place, if anything is.
pub(crate) fn kept_at<T: Copy + Drop>(items: &Vec<Option<T>>, at: usize) -> Option<T>
    ensures { (x : T) → result ≡ Some x → slice_get items.now.items at ≡ Some (Some x) }
{
    if at < items.len() { items[at] } else { None }
}

/// Keeps something of a place, if there is room.
pub(crate) fn keep_at<T: Copy + Drop>(items: &mut Vec<Option<T>>, at: usize, item: T)
    ensures { (p : ℕ) (x : T) → slice_get items.new.items p ≡ Some (Some x)
        → (slice_get items.old.items p ≡ Some (Some x)) ⊎ ((p ≡ at) × (x ≡ item)) }
{
    if make_room(items, at) {
        items[at] = Some(item);
    }
}
