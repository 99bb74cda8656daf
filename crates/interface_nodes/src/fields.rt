//! What stands in nodes, field by field.

ghost use Rattle.std.specs.Prelude.{◌≡◌, ◌∷◌, [], ◌++◌, map, IfOk, OnOk};
ghost use Rattle.interface_format.specs.Tags.{bool_byte, status_byte};
ghost use Rattle.cm_bytes.specs.Fields.{u32_of};
ghost use Rattle.interface_nodes.specs.Fields.{byte_items, number_items, text_items, table_items, values_items, parts_items, owner_items, type_name_items};

use cm_base::{List, NoMemory, Text};
use node_bytes::Item;
use semantic_objects::{Owner, TyName, VidStatus};
use std::alloc::Global;

/// A name with the place of a node, as a label with that of its type.
#[derive(Drop)]
pub struct NamedPlace {
    pub name: Text,
    pub place: usize,
}

/// The name of a value with its status and the place of its scheme.
#[derive(Drop)]
pub struct ValuePlace {
    pub name: Text,
    pub status: VidStatus,
    pub place: usize,
}

/// Adds a byte.
pub(crate) fn add_byte(alloc: Global, items: &mut List<Item>, byte: u8) -> Result<(), NoMemory>
    ensures { OnOk result (items.new ≡ items.old ++ byte_items byte) }
{
    let text = Text::from_bytes(alloc, &[byte])?;
    items.add(Item::Piece(text))
}

/// Adds a number.
#[tactic(auto, unfolding(cm_bytes::specs::Fields::u32_of))]
pub(crate) fn add_number(alloc: Global, items: &mut List<Item>, number: u32) -> Result<(), NoMemory>
    ensures { OnOk result (items.new ≡ items.old ++ number_items number) }
{
    let text = Text::from_bytes(alloc, &number.to_be_bytes())?;
    items.add(Item::Piece(text))
}

/// Adds a count. One of more than four bytes counts as want of memory.
pub(crate) fn add_count(alloc: Global, items: &mut List<Item>, count: u64) -> Result<(), NoMemory>
    ensures { OnOk result (items.new ≡ items.old ++ number_items count) }
{
    if count > 0xffff_ffff {
        return Err(NoMemory);
    }
    add_number(alloc, items, count as u32)
}

/// Adds a text behind its length.
pub(crate) fn add_text(alloc: Global, items: &mut List<Item>, text: &Text) -> Result<(), NoMemory>
    ensures { OnOk result (items.new ≡ items.old ++ text_items text.now) }
{
    add_count(alloc, items, text.as_bytes().len() as u64)?;
    let text = text.copy()?;
    items.add(Item::Piece(text))
}

/// The bytes of marks: 1 for each equality variable, 0 for each other one.
fn bytes_of_marks(alloc: Global, marks: &[bool]) -> Result<Text, NoMemory>
    ensures { IfOk result (λ text. text ≡ map bool_byte marks.now) }
{
    let mut bytes = Vec::new(alloc);
    for mark in marks {
        bytes.push(*mark as u8)?;
    }
    Ok(Text::from_vec(bytes))
}

/// Adds marks behind their count.
pub(crate) fn add_marks(
    alloc: Global,
    items: &mut List<Item>,
    marks: &[bool],
) -> Result<(), NoMemory>
    ensures { OnOk result (items.new ≡ items.old ++ text_items (map bool_byte marks.now)) }
{
    let text = bytes_of_marks(alloc, marks)?;
    add_text(alloc, items, &text)
}

/// Adds rows of names and parts behind their count.
pub(crate) fn add_table(
    alloc: Global,
    items: &mut List<Item>,
    rows: &[NamedPlace],
) -> Result<(), NoMemory>
    ensures { OnOk result (items.new ≡ items.old ++ table_items rows.now) }
{
    add_count(alloc, items, rows.len() as u64)?;
    for row in rows {
        add_text(alloc, items, &row.name)?;
        items.add(Item::Part(row.place))?;
    }
    Ok(())
}

/// The byte of a status.
fn status_byte(status: VidStatus) -> u8
    ensures { result ≡ status_byte status }
{
    match status {
        VidStatus::Variable => 0,
        VidStatus::Constructor => 1,
        VidStatus::Exception => 2,
    }
}

/// Adds rows of values behind their count.
pub(crate) fn add_values(
    alloc: Global,
    items: &mut List<Item>,
    rows: &[ValuePlace],
) -> Result<(), NoMemory>
    ensures { OnOk result (items.new ≡ items.old ++ values_items rows.now) }
{
    add_count(alloc, items, rows.len() as u64)?;
    for row in rows {
        add_text(alloc, items, &row.name)?;
        add_byte(alloc, items, status_byte(row.status))?;
        items.add(Item::Part(row.place))?;
    }
    Ok(())
}

/// Adds parts behind their count.
pub(crate) fn add_parts(
    alloc: Global,
    items: &mut List<Item>,
    places: &[usize],
) -> Result<(), NoMemory>
    ensures { OnOk result (items.new ≡ items.old ++ parts_items places.now) }
{
    add_count(alloc, items, places.len() as u64)?;
    for place in places {
        items.add(Item::Part(*place))?;
    }
    Ok(())
}

/// Adds whose a type name is, in the interface of `home`.
fn add_owner(
    alloc: Global,
    items: &mut List<Item>,
    home: &Text,
    owner: &Owner,
) -> Result<(), NoMemory>
    ensures { OnOk result (items.new ≡ items.old ++ owner_items home.now owner.now) }
{
    match owner {
        Owner::Basis => add_byte(alloc, items, 0),
        Owner::Unit(unit) => {
            if home.as_bytes() == unit.as_bytes() {
                add_byte(alloc, items, 1)
            } else {
                add_byte(alloc, items, 2)?;
                add_text(alloc, items, unit)
            }
        }
        Owner::Bound => add_byte(alloc, items, 3),
    }
}

/// Adds a type name, in the interface of `home`.
pub(crate) fn add_type_name(
    alloc: Global,
    items: &mut List<Item>,
    home: &Text,
    name: &TyName,
) -> Result<(), NoMemory>
    ensures { OnOk result (items.new ≡ items.old ++ type_name_items home.now name.now) }
{
    add_owner(alloc, items, home, &name.owner)?;
    add_count(alloc, items, name.number)?;
    add_number(alloc, items, name.arity)?;
    add_byte(alloc, items, name.eq as u8)
}
