//! A table of types, with the ids and the schemes that its calls gave, by the numbers in which they came.

ghost use Rattle.std.specs.Prelude.{IfOk, IfSome};
ghost use Rattle.type_nodes.specs.Tables.{Has};
ghost use Rattle.type_schemes.specs.Schemes.{HaveAll};

use case_files::{Part, number_of, push_parts};
use case_texts::Scene;
use cm_base::{List, NoMemory, Text};
use semantic_objects::Scheme;
use sml_types::{TyId, TypeTable};
use std::alloc::Global;

/// A table, its ids and schemes.
#[derive(Drop)]
pub struct TableScene {
    pub alloc: Global,
    pub table: TypeTable,
    pub ids: List<TyId>,
    pub schemes: List<Scheme>,
}

/// The number of a word as a place.
fn place_of(word: &Text) -> Option<usize> {
    match number_of(word.as_bytes()) {
        Some(number) => Some(number as usize),
        None => None,
    }
}

/// The id of a number, where it is one of the table.
pub fn id_of(table: &TypeTable, ids: &List<TyId>, word: &Text) -> Option<TyId>
    ensures { IfSome result (Has table.now) }
{
    let id = *ids.get(place_of(word)?)?;
    if table.has(id) { Some(id) } else { None }
}

/// The ids of some numbers, where they are ids of the table.
pub fn ids_of(
    alloc: Global,
    table: &TypeTable,
    ids: &List<TyId>,
    words: &[Text],
) -> Result<Option<List<TyId>>, NoMemory>
    ensures { IfOk result (λ found. IfSome found (HaveAll table.now)) }
{
    let mut found = List::new(alloc);
    for word in words {
        match id_of(table, ids, word) {
            Some(id) => found.add(id)?,
            None => return Ok(None),
        }
    }
    Ok(Some(found))
}

/// A number as a line.
pub fn number_line(alloc: Global, number: u64) -> Result<Option<Vec<u8>>, NoMemory> {
    let mut out = Vec::new(alloc);
    push_parts(alloc, &mut out, &[Part::Number(number), Part::Text(b"\n")])?;
    Ok(Some(out))
}

/// Bytes as a line.
pub fn bytes_line(alloc: Global, bytes: &[u8]) -> Result<Option<Vec<u8>>, NoMemory> {
    let mut out = Vec::new(alloc);
    push_parts(alloc, &mut out, &[Part::Text(bytes), Part::Text(b"\n")])?;
    Ok(Some(out))
}

impl TableScene {
    /// A table whose ids aren't known.
    pub fn new(alloc: Global, table: TypeTable) -> TableScene {
        TableScene {
            alloc,
            table,
            ids: List::new(alloc),
            schemes: List::new(alloc),
        }
    }

    /// Keeps an id, and answers its number.
    pub fn keep(&mut self, id: TyId) -> Result<Option<Vec<u8>>, NoMemory> {
        let number = self.ids.len() as u64;
        self.ids.add(id)?;
        number_line(self.alloc, number)
    }

    /// Keeps a scheme, and answers its number.
    pub fn keep_scheme(&mut self, scheme: Scheme) -> Result<Option<Vec<u8>>, NoMemory> {
        let number = self.schemes.len() as u64;
        self.schemes.add(scheme)?;
        number_line(self.alloc, number)
    }
}

impl Scene for TableScene {
    fn answer(
        &mut self,
        _alloc: Global,
        step: &[u8],
        words: &[Text],
    ) -> Result<Option<Vec<u8>>, NoMemory> {
        if let Some(out) = self.making_step(step, words)? {
            return Ok(Some(out));
        }
        if let Some(out) = self.asking_step(step, words)? {
            return Ok(Some(out));
        }
        self.growing_step(step, words)
    }
}
