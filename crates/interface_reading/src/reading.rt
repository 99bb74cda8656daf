//! Nodes are read while some are open. Those that are open are kept in a list, so that no depth is too much.

ghost use Rattle.std.specs.Prelude.{◌≡◌, ◌≢◌, ℕ, List, [], ◌∷◌, None, get_or, OnOk};
ghost use Rattle.interface_reading.specs.Meeting.{Meets};
ghost use Rattle.interface_reading.specs.Weights.{IsLighter};
ghost use Rattle.interface_reading.specs.Remaining.{Holds, Advances, AddsNew, HandsOn, OpensNode, ReadsOpen, with_open, with_need};
ghost use Rattle.interface_reading.specs.declared.needs.Need.TheVariants.{Part as part};

use crate::fault::RestoreFault;
use crate::needs::{Need, needs_of};
use crate::open::{Open, meet_items, meet_list, meet_owner, meet_raw, meet_text};
use cm_base::{List, NoMemory};
use cm_bytes::Reader;
use indexmap::IndexSet;
use node_bytes::{Item, Row};
use std::alloc::Global;

/// The tag of back references.
pub(crate) const BACK: u8 = 12;

/// What was read so far: the places of nodes by their numbers, none yet where a node is still open; the nodes that are
/// whole, each behind its parts; and those that are open, the innermost last.
#[derive(Drop)]
pub(crate) struct Reading {
    pub(crate) numbers: Vec<Option<usize>>,
    pub(crate) rows: IndexSet<Row>,
    pub(crate) opens: List<Open>,
}

/// Meets what was awaited first in an open node, where it isn't a part.
fn meet(
    alloc: Global,
    need: Need,
    reader: &mut Reader<'_>,
    top: &mut Open,
) -> Result<(), RestoreFault>
    requires { need ≢ part }
    ensures goes { Meets need result top.old top.new reader.old reader.new }
    ensures less { OnOk result (IsLighter need reader.old top.old.needs reader.new top.new.needs) }
{
    match need {
        Need::Raw(n) => meet_raw(alloc, n, reader, top),
        Need::Text => meet_text(alloc, reader, top),
        Need::Owner => meet_owner(alloc, reader, top),
        Need::List(listed) => meet_list(alloc, listed, reader, top),
        Need::Items(listed, n) => meet_items(listed, n, top),
        Need::Part => Err(RestoreFault::NoMemory),
    }
}

/// A node is opened behind its tag, and takes the next number.
pub(crate) fn open_node(alloc: Global, tag: u8, state: &mut Reading) -> Result<(), RestoreFault>
    ensures { OpensNode tag result state.old state.new }
{
    let needs = needs_of(alloc, tag)?;
    let number = state.numbers.len();
    state.numbers.push(None)?;
    Ok(
        state.opens.add(Open {
            tag,
            number,
            needs,
            items: List::new(alloc),
        })?,
    )
}

/// The place of the node that stands whole under a number.
fn place_of(numbers: &[Option<usize>], number: u32) -> Option<usize>
    ensures { result ≡ get_or numbers.now number None }
{
    if numbers.len() <= number as usize {
        return None;
    }
    numbers[number as usize]
}

/// A back reference stands where a part was awaited in the innermost node, which was taken from the list: it is
/// followed.
fn follow(mut top: Open, reader: &mut Reader<'_>, state: &mut Reading) -> Result<(), RestoreFault>
    requires { Holds (with_open state.old (with_need top part)) }
    ensures { Advances result (with_open state.old (with_need top part)) state.new (12 ∷ reader.old) reader.new }
{
    let number = reader.u32()?;
    let Some(place) = place_of(state.numbers.as_slice(), number) else {
        return Err(RestoreFault::BadInterface);
    };
    top.items.add(Item::Part(place))?;
    Ok(state.opens.add(top)?)
}

/// A part was awaited in the innermost node, which was taken from the list: a back reference is followed, or a node is
/// opened.
fn meet_part(
    alloc: Global,
    top: Open,
    reader: &mut Reader<'_>,
    state: &mut Reading,
) -> Result<(), RestoreFault>
    requires { Holds (with_open state.old (with_need top part)) }
    ensures { Advances result (with_open state.old (with_need top part)) state.new reader.old reader.new }
{
    let tag = reader.u8()?;
    if tag == BACK {
        return follow(top, reader, state);
    }
    state.opens.add(top)?;
    open_node(alloc, tag, state)
}

/// What was awaited first in the innermost node, which was taken from the list, is met.
fn step(
    alloc: Global,
    need: Need,
    mut top: Open,
    reader: &mut Reader<'_>,
    state: &mut Reading,
) -> Result<(), RestoreFault>
    requires { Holds (with_open state.old (with_need top need)) }
    ensures { Advances result (with_open state.old (with_need top need)) state.new reader.old reader.new }
{
    if let Need::Part = need {
        return meet_part(alloc, top, reader, state);
    }
    meet(alloc, need, reader, &mut top)?;
    Ok(state.opens.add(top)?)
}

/// A node that is whole is the part that was awaited in the innermost open node, if there is one.
fn hand_on(place: usize, opens: &mut List<Open>) -> Result<(), NoMemory>
    ensures { OnOk result (HandsOn place opens.old opens.new) }
{
    let Some(mut outer) = opens.pop() else {
        return Ok(());
    };
    outer.items.add(Item::Part(place))?;
    opens.add(outer)
}

/// The place of a node that stands nowhere yet, which is added.
fn add_new(rows: &mut IndexSet<Row>, row: Row) -> Result<usize, RestoreFault>
    ensures { AddsNew row rows.old.keys rows.new.keys result }
{
    let (place, new) = rows.insert_full(row)?;
    if !new {
        return Err(RestoreFault::BadInterface);
    }
    Ok(place)
}

/// Nothing more is awaited in the innermost node, which was taken from the list: it is whole, and must stand nowhere
/// yet.
fn close(top: Open, state: &mut Reading) -> Result<(), RestoreFault>
    requires whole { top.needs ≡ [] }
    requires holds { Holds (with_open state.old top) }
    ensures { (bytes : List ℕ) → Advances result (with_open state.old top) state.new bytes bytes }
{
    let Open {
        tag,
        number,
        items,
        ..
    } = top;
    let place = add_new(&mut state.rows, Row { tag, items })?;
    state.numbers[number] = Some(place);
    Ok(hand_on(place, &mut state.opens)?)
}

/// Takes a step in the innermost node, which was taken from the list.
fn advance(
    alloc: Global,
    mut top: Open,
    reader: &mut Reader<'_>,
    state: &mut Reading,
) -> Result<(), RestoreFault>
    requires { Holds (with_open state.old top) }
    ensures { Advances result (with_open state.old top) state.new reader.old reader.new }
{
    match top.needs.pop() {
        None => close(top, state),
        Some(need) => step(alloc, need, top, reader, state),
    }
}

/// Reads until no node is open.
pub(crate) fn read_open(
    alloc: Global,
    reader: &mut Reader<'_>,
    state: &mut Reading,
) -> Result<(), RestoreFault>
    requires { Holds state.old }
    ensures { ReadsOpen result state.old state.new reader.old reader.new }
{
    while let Some(top) = state.opens.pop() {
        advance(alloc, top, reader, state)?;
    }
    Ok(())
}
