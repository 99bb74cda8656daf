//! A table of nodes, which have the numbers of their places.

ghost use Rattle.std.specs.Prelude.{IfOk, IfSome};
ghost use Rattle.node_tables.specs.Tables.{HasParts};
ghost use Rattle.node_bytes.specs.Writing.{HasPart};

use crate::hex_words::{bytes_of, digits_line};
use case_files::{Part, number_of, push_parts};
use case_texts::{Scene, line};
use cm_base::{List, NoMemory, Text};
use interface_reading::{RestoreFault, read_rows};
use node_bytes::{Item, WriteFault};
use node_tables::NodeTable;
use std::alloc::Global;

/// The tag of back references in these cases.
const BACK: u8 = 12;

/// A table.
#[derive(Drop)]
pub struct NodeScene {
    alloc: Global,
    table: NodeTable,
}

/// A number as a line.
pub fn number_line(alloc: Global, number: u64) -> Result<Option<Vec<u8>>, NoMemory> {
    let mut out = Vec::new(alloc);
    push_parts(alloc, &mut out, &[Part::Number(number), Part::Text(b"\n")])?;
    Ok(Some(out))
}

/// The item that a word is: `x` and the hex digits of a piece, or the place of a part.
fn item_of(alloc: Global, count: usize, word: &[u8]) -> Result<Option<Item>, NoMemory>
    ensures { IfOk result (λ item. IfSome item (HasPart count)) }
{
    match word {
        [b'x', digits @ ..] => match bytes_of(alloc, digits)? {
            Some(text) => Ok(Some(Item::Piece(text))),
            None => Ok(None),
        },
        _ => match number_of(word) {
            Some(place) if (place as usize) < count => Ok(Some(Item::Part(place as usize))),
            _ => Ok(None),
        },
    }
}

/// The items that words are.
#[tactic(auto, using(crate::proofs::Parts::has_none, crate::proofs::Parts::has_added))]
fn items_of(alloc: Global, count: usize, words: &[Text]) -> Result<Option<List<Item>>, NoMemory>
    ensures { IfOk result (λ items. IfSome items (HasParts count)) }
{
    let mut items = List::new(alloc);
    for word in words {
        match item_of(alloc, count, word.as_bytes())? {
            Some(item) => items.add(item)?,
            None => return Ok(None),
        }
    }
    Ok(Some(items))
}

impl NodeScene {
    /// A table without nodes.
    pub fn new(alloc: Global) -> NodeScene {
        NodeScene {
            alloc,
            table: NodeTable::new(alloc),
        }
    }

    /// Adds a node, and answers its place.
    fn add(&mut self, tag: &[u8], words: &[Text]) -> Result<Option<Vec<u8>>, NoMemory> {
        let Some(tag) = number_of(tag) else {
            return Ok(None);
        };
        if tag > 255 {
            return Ok(None);
        }
        match items_of(self.alloc, self.table.len(), words)? {
            Some(items) => {
                let place = self.table.add(tag as u8, items)?;
                number_line(self.alloc, place as u64)
            }
            None => Ok(None),
        }
    }

    /// The bytes of a node, or that they pass the limit.
    fn written(&self, root: &Text, limit: &Text) -> Result<Option<Vec<u8>>, NoMemory> {
        let (root, limit) = (number_of(root.as_bytes()), number_of(limit.as_bytes()));
        let (Some(root), Some(limit)) = (root, limit) else {
            return Ok(None);
        };
        if self.table.len() <= root as usize {
            return Ok(None);
        }
        match self.table.write(self.alloc, root as usize, BACK, limit) {
            Ok(text) => Ok(Some(digits_line(self.alloc, text.as_bytes())?)),
            Err(WriteFault::TooLong) => Ok(Some(line(self.alloc, b"too long")?)),
            Err(WriteFault::NoMemory) => Err(NoMemory),
        }
    }

    /// How many nodes an interface has that is spelled so behind its mark, or that none is.
    fn count_read(&self, bytes: &[u8]) -> Result<Option<Vec<u8>>, NoMemory> {
        match read_rows(self.alloc, bytes) {
            Ok(rows) => number_line(self.alloc, rows.as_slice().len() as u64),
            Err(RestoreFault::BadInterface) => Ok(Some(line(self.alloc, b"none")?)),
            Err(RestoreFault::NoMemory) => Err(NoMemory),
        }
    }

    /// The same of hex digits.
    fn read(&self, digits: &Text) -> Result<Option<Vec<u8>>, NoMemory> {
        match bytes_of(self.alloc, digits.as_bytes())? {
            Some(bytes) => self.count_read(bytes.as_bytes()),
            None => Ok(None),
        }
    }

    /// The same of a byte, so many times.
    fn read_many(&self, count: &Text, byte: &Text) -> Result<Option<Vec<u8>>, NoMemory> {
        let (count, byte) = (number_of(count.as_bytes()), number_of(byte.as_bytes()));
        let (Some(count), Some(byte)) = (count, byte) else {
            return Ok(None);
        };
        if byte > 255 {
            return Ok(None);
        }
        let bytes = vec![in self.alloc; byte as u8; count as usize]?;
        self.count_read(bytes.as_slice())
    }
}

impl Scene for NodeScene {
    fn answer(
        &mut self,
        _alloc: Global,
        step: &[u8],
        words: &[Text],
    ) -> Result<Option<Vec<u8>>, NoMemory> {
        match (step, words) {
            (b"add", [tag, items @ ..]) => self.add(tag.as_bytes(), items),
            (b"len", []) => number_line(self.alloc, self.table.len() as u64),
            (b"write", [root, limit]) => self.written(root, limit),
            (b"read", [digits]) => self.read(digits),
            (b"read-many", [count, byte]) => self.read_many(count, byte),
            _ => Ok(None),
        }
    }
}
