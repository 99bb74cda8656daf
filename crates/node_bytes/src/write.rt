//! A node of a table is written. The nodes that are open are kept in a list, so that no depth is too much; each node is
//! gone through once; and writing stops at the limit.

ghost use Rattle.std.specs.Prelude.{◌≡◌, ◌<◌, ◌≤◌, ◌+◌, ◌^◌, ◌∷◌, length, Some};
ghost use Rattle.cm_bytes.specs.Fields.{u32_of};
ghost use Rattle.node_bytes.specs.Formats.{Format};
ghost use Rattle.node_bytes.specs.Spelling.{spelling};
ghost use Rattle.node_bytes.specs.Tables.{table_node, AreRows, AreApart, Writes};
ghost use Rattle.node_bytes.specs.Going.{Begins};
ghost use Rattle.node_bytes.specs.Writing.{Appended, Done, HasRoom, entered, visited, stepped_by, stepped, HasPart};

use crate::fault::WriteFault;
use crate::table::{Item, Row};
use cm_base::{List, Text};
use std::alloc::Global;

/// A node that is open: its place, its number, and how many of its items are written.
#[derive(Clone, Copy, Debug)]
struct Open {
    id: usize,
    number: u32,
    at: usize,
}

/// What is written so far, the numbers of nodes by their places, the next number, and the nodes that are open, the
/// innermost last.
#[derive(Debug, Drop)]
struct Writing {
    out: Vec<u8>,
    numbers: Vec<Option<u32>>,
    next: u32,
    opens: List<Open>,
}

/// Appends bytes, unless they pass the limit.
fn append(out: &mut Vec<u8>, bytes: &[u8], limit: u32) -> Result<(), WriteFault>
    requires { length out.old.items ≤ limit }
    ensures { Appended limit bytes.now out.old.items out.new.items result }
{
    if limit as usize - out.len() < bytes.len() {
        return Err(WriteFault::TooLong);
    }
    Ok(out.extend_from_slice(bytes)?)
}

/// Appends a number.
#[tactic(auto, unfolding(cm_bytes::specs::Fields::u32_of))]
fn append_number(out: &mut Vec<u8>, number: u32, limit: u32) -> Result<(), WriteFault>
    requires { length out.old.items ≤ limit }
    ensures { Appended limit (u32_of number) out.old.items out.new.items result }
{
    append(out, &number.to_be_bytes(), limit)
}

/// Appends a back reference.
fn refer(out: &mut Vec<u8>, back: u8, number: u32, limit: u32) -> Result<(), WriteFault>
    requires { length out.old.items ≤ limit }
    ensures { Appended limit (back ∷ u32_of number) out.old.items out.new.items result }
{
    append(out, &[back], limit)?;
    append_number(out, number, limit)
}

/// Opens a node, which takes the next number at its tag.
fn enter(rows: &[Row], id: usize, limit: u32, state: &mut Writing) -> Result<(), WriteFault>
    requires has { id < length rows.now }
    requires room { HasRoom (length rows.now) limit state.old }
    ensures { Done limit (entered rows.now id state.old) state.old state.new result }
{
    append(&mut state.out, &[rows[id].tag], limit)?;
    state.numbers[id] = Some(state.next);
    state.opens.add(Open {
        id,
        number: state.next,
        at: 0,
    })?;
    state.next += 1;
    Ok(())
}

/// Writes a part: a back reference, or the node, which is opened.
fn visit(
    rows: &[Row],
    back: u8,
    id: usize,
    limit: u32,
    state: &mut Writing,
) -> Result<(), WriteFault>
    requires has { id < length rows.now }
    requires room { HasRoom (length rows.now) limit state.old }
    ensures { Done limit (visited rows.now back id state.old) state.old state.new result }
{
    match state.numbers[id] {
        Some(number) => refer(&mut state.out, back, number, limit),
        None => enter(rows, id, limit, state),
    }
}

/// Writes an item of the innermost node, which was taken from the list of those that are open.
fn take(
    rows: &[Row],
    back: u8,
    item: &Item,
    top: Open,
    limit: u32,
    state: &mut Writing,
) -> Result<(), WriteFault>
    requires has { HasPart (length rows.now) item.now }
    requires more { top.at + 1 < 2 ^ 64 }
    requires room { HasRoom (length rows.now) limit state.old }
    ensures { Done limit (stepped_by (Some item.now) rows.now back top state.old) state.old state.new result }
{
    state.opens.add(Open {
        id: top.id,
        number: top.number,
        at: top.at + 1,
    })?;
    match item {
        Item::Piece(text) => append(&mut state.out, text.as_bytes(), limit),
        Item::Part(id) => visit(rows, back, *id, limit, state),
    }
}

/// Takes a step in the innermost node, which was taken from the list of those that are open.
fn step(
    rows: &[Row],
    back: u8,
    top: Open,
    limit: u32,
    state: &mut Writing,
) -> Result<(), WriteFault>
    requires has { top.id < length rows.now }
    requires rows { AreRows rows.now }
    requires room { HasRoom (length rows.now) limit state.old }
    ensures { Done limit (stepped rows.now back top state.old) state.old state.new result }
{
    let items = rows[top.id].items.as_slice();
    if items.len() <= top.at {
        return Ok(());
    }
    take(rows, back, &items[top.at], top, limit, state)
}

/// Writing is begun with a node.
fn begin(alloc: Global, rows: &[Row], root: usize, limit: u32) -> Result<Writing, WriteFault>
    requires { root < length rows.now }
    ensures { Begins rows.now root limit result }
{
    let mut state = Writing {
        out: Vec::new(alloc),
        numbers: vec![in alloc; None; rows.len()]?,
        next: 0,
        opens: List::new(alloc),
    };
    enter(rows, root, limit, &mut state)?;
    Ok(state)
}

/// The spelling of the node at a place of a table in which no node stands twice. It is refused exactly where it is
/// longer than the limit.
pub fn write_node(
    alloc: Global,
    rows: &[Row],
    root: usize,
    back: u8,
    limit: u32,
) -> Result<Text, WriteFault>
    requires has { root < length rows.now }
    requires rows { AreRows rows.now }
    requires apart { AreApart rows.now }
    ensures { (f : Format) → f.back ≡ back → Writes limit (spelling f (table_node rows.now root)) result }
{
    let mut state = begin(alloc, rows, root, limit)?;
    while let Some(top) = state.opens.pop() {
        step(rows, back, top, limit, &mut state)?;
    }
    let Writing { out, .. } = state;
    Ok(Text::from_vec(out))
}
