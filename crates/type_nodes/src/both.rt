//! Two lists that grow together.

ghost use Rattle.std.specs.Prelude.{◌≡◌, ◌++◌, ◌∷◌, [], length, OnOk, OnErr};

use cm_base::NoMemory;

/// How many items a list has.
fn count_of<T>(items: &Vec<T>) -> usize
    ensures { result ≡ length items.now.items }
{
    items.len()
}

/// Adds an item to each of two lists, or to none.
pub(crate) fn push_both<A: Drop, B: Drop>(
    these: &mut Vec<A>,
    those: &mut Vec<B>,
    this: A,
    that: B,
) -> Result<(), NoMemory>
    ensures these { OnOk result (these.new.items ≡ these.old.items ++ this ∷ []) }
    ensures those { OnOk result (those.new.items ≡ those.old.items ++ that ∷ []) }
    ensures refused { OnErr result ((these.new.items ≡ these.old.items) × (those.new.items ≡ those.old.items)) }
{
    let before = count_of(these);
    these.push(this)?;
    match those.push(that) {
        Ok(()) => Ok(()),
        Err(_) => {
            these.truncate(before);
            Err(NoMemory)
        }
    }
}
