//! Bytes are read as a table of nodes.

ghost use Rattle.interface_reading.specs.Rows.{Begins, ReadsRows};

use crate::fault::RestoreFault;
use crate::reading::{BACK, Reading, open_node, read_open};
use cm_base::List;
use cm_bytes::Reader;
use indexmap::IndexSet;
use node_bytes::Row;
use std::alloc::Global;

/// Reading is begun with the node at the front.
fn begin(alloc: Global, reader: &mut Reader<'_>) -> Result<Reading, RestoreFault>
    ensures { Begins reader.old reader.new result }
{
    let tag = reader.u8()?;
    if tag == BACK {
        return Err(RestoreFault::BadInterface);
    }
    let mut state = Reading {
        numbers: Vec::new(alloc),
        rows: IndexSet::new(alloc),
        opens: List::new(alloc),
    };
    open_node(alloc, tag, &mut state)?;
    Ok(state)
}

/// The nodes that bytes spell behind the mark of interfaces, each once and behind its parts: the last one is the whole.
/// They are refused exactly where the bytes spell no node, each equal node of which is written once. Nothing is read of
/// what the pieces say but where they end.
pub fn read_rows(alloc: Global, bytes: &[u8]) -> Result<IndexSet<Row>, RestoreFault>
    ensures { ReadsRows bytes.now result }
{
    let mut reader = Reader::new(bytes);
    let mut state = begin(alloc, &mut reader)?;
    read_open(alloc, &mut reader, &mut state)?;
    if !reader.at_end() {
        return Err(RestoreFault::BadInterface);
    }
    let Reading { rows, .. } = state;
    Ok(rows)
}
