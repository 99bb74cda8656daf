//! Nodes that are open, and how what is awaited in them is met.

ghost use Rattle.std.specs.Prelude.{◌≤◌, ◌+◌, ℕ, List, OnOk};
ghost use Rattle.interface_reading.specs.Meeting.{TakesByte, TakesCount, Meets, MeetsAtOnce, AwaitsItem};
ghost use Rattle.interface_reading.specs.Weights.{IsLighter, needs_weight};
ghost use Rattle.interface_reading.specs.declared.needs.Need.TheVariants as need;

use crate::fault::RestoreFault;
use crate::needs::{Listed, Need, first_in, number_in, read_piece};
use cm_base::{List, NoMemory};
use cm_bytes::Reader;
use node_bytes::Item;
use std::alloc::Global;

/// A node that is open: its tag, its number, what is awaited in it, the first of it last, and what was read of it.
#[derive(Debug, Drop)]
pub(crate) struct Open {
    pub(crate) tag: u8,
    pub(crate) number: usize,
    pub(crate) needs: List<Need>,
    pub(crate) items: List<Item>,
}

/// Reads a number of a node.
fn read_count(
    alloc: Global,
    reader: &mut Reader<'_>,
    items: &mut List<Item>,
) -> Result<u32, RestoreFault>
    ensures { TakesCount result reader.old reader.new items.old items.new }
{
    let text = read_piece(alloc, 4, reader, items)?;
    Ok(number_in(text))
}

/// So many bytes were awaited.
pub(crate) fn meet_raw(
    alloc: Global,
    n: u32,
    reader: &mut Reader<'_>,
    top: &mut Open,
) -> Result<(), RestoreFault>
    ensures goes { Meets (need.Raw n) result top.old top.new reader.old reader.new }
    ensures less { OnOk result (IsLighter (need.Raw n) reader.old top.old.needs reader.new top.new.needs) }
{
    read_piece(alloc, n, reader, &mut top.items)?;
    Ok(())
}

/// A text was awaited: its length is read.
pub(crate) fn meet_text(
    alloc: Global,
    reader: &mut Reader<'_>,
    top: &mut Open,
) -> Result<(), RestoreFault>
    ensures goes { Meets need.Text result top.old top.new reader.old reader.new }
    ensures less { OnOk result (IsLighter need.Text reader.old top.old.needs reader.new top.new.needs) }
{
    let len = read_count(alloc, reader, &mut top.items)?;
    Ok(top.needs.add(Need::Raw(len))?)
}

/// A list was awaited: its count is read, and no memory is taken for it.
pub(crate) fn meet_list(
    alloc: Global,
    listed: Listed,
    reader: &mut Reader<'_>,
    top: &mut Open,
) -> Result<(), RestoreFault>
    ensures goes { Meets (need.List listed) result top.old top.new reader.old reader.new }
    ensures less { OnOk result (IsLighter (need.List listed) reader.old top.old.needs reader.new top.new.needs) }
{
    let count = read_count(alloc, reader, &mut top.items)?;
    Ok(top.needs.add(Need::Items(listed, count))?)
}

/// What an item of a list has is awaited.
fn add_item(listed: Listed, needs: &mut List<Need>) -> Result<(), NoMemory>
    ensures awaits { OnOk result (AwaitsItem listed needs.old needs.new) }
    ensures few { OnOk result (needs_weight needs.new ≤ needs_weight needs.old + 3) }
{
    needs.add(Need::Part)?;
    match listed {
        Listed::Parts => Ok(()),
        Listed::Named => needs.add(Need::Text),
        Listed::Values => {
            needs.add(Need::Raw(1))?;
            needs.add(Need::Text)
        }
    }
}

/// So many items were awaited: one of them, and the others behind it.
pub(crate) fn meet_items(listed: Listed, n: u32, top: &mut Open) -> Result<(), RestoreFault>
    ensures goes { MeetsAtOnce (need.Items listed n) result top.old top.new }
    ensures less { (bytes : List ℕ) → OnOk result (IsLighter (need.Items listed n) bytes top.old.needs bytes top.new.needs) }
{
    if n == 0 {
        return Ok(());
    }
    top.needs.add(Need::Items(listed, n - 1))?;
    Ok(add_item(listed, &mut top.needs)?)
}

/// Reads a byte of a node.
fn read_byte(
    alloc: Global,
    reader: &mut Reader<'_>,
    items: &mut List<Item>,
) -> Result<u8, RestoreFault>
    ensures { TakesByte result reader.old reader.new items.old items.new }
{
    let text = read_piece(alloc, 1, reader, items)?;
    Ok(first_in(text))
}

/// Whose a type name is was awaited: a byte says it, and the name of another unit stands behind that.
pub(crate) fn meet_owner(
    alloc: Global,
    reader: &mut Reader<'_>,
    top: &mut Open,
) -> Result<(), RestoreFault>
    ensures goes { Meets need.Owner result top.old top.new reader.old reader.new }
    ensures less { OnOk result (IsLighter need.Owner reader.old top.old.needs reader.new top.new.needs) }
{
    let kind = read_byte(alloc, reader, &mut top.items)?;
    if kind == 2 {
        return Ok(top.needs.add(Need::Text)?);
    }
    if 3 < kind {
        return Err(RestoreFault::BadInterface);
    }
    Ok(())
}
