//! Cases `nodes`: trees of nodes that may share parts. A node is a word with the places of its parts behind it.

ghost use Rattle.std.specs.Prelude.{◌≡◌, ◌<◌, length, IsTrue, IfOk, IfSome};
ghost use Rattle.semantic_objects.specs.Symbols.{part_count, HasRisingLabels, AreRising};
ghost use Rattle.semantic_objects.specs.Nodes.{AreBelow, IsNodeAt, AreNodes};

use crate::trees::push_tree;
use crate::words::{Word, read_word};
use case_files::number_of;
use cm_base::{List, NoMemory, Text};
use semantic_objects::{Symbol, TypeNode, TypeTree};
use std::alloc::Global;
use std::cmp::Ordering;

/// The node of a word over nodes at some places.
fn node_of(word: Word, places: List<usize>) -> TypeNode {
    match word {
        Word::Free(number) => TypeNode::Free(number as usize),
        Word::Bound(place) => TypeNode::Bound(place),
        Word::Arrow => TypeNode::Made(Symbol::Arrow, places),
        Word::Name(name) => TypeNode::Made(Symbol::Name(name), places),
        Word::Record(labels) => TypeNode::Made(Symbol::Record(labels), places),
    }
}

/// The places that the words of a text write.
fn read_places(alloc: Global, text: &[u8]) -> Result<List<usize>, NoMemory> {
    let mut places = List::new(alloc);
    for word in text.split(|byte| *byte == b' ') {
        if let Some(place) = number_of(word) {
            places.add(place as usize)?;
        }
    }
    Ok(places)
}

/// The node of a text: a word and places.
fn read_node(alloc: Global, text: &[u8]) -> Result<Option<TypeNode>, NoMemory> {
    let end = text
        .iter()
        .position(|byte| *byte == b' ')
        .unwrap_or(text.len());
    let (word, places) = text.split_at(end);
    match read_word(alloc, word)? {
        Some(word) => Ok(Some(node_of(word, read_places(alloc, places)?))),
        None => Ok(None),
    }
}

/// The nodes of a text, with `;` between them.
fn read_nodes(alloc: Global, text: &[u8]) -> Result<Option<List<TypeNode>>, NoMemory> {
    let mut nodes = List::new(alloc);
    for piece in text.split(|byte| *byte == b';') {
        match read_node(alloc, piece.trim_ascii())? {
            Some(node) => nodes.add(node)?,
            None => return Ok(None),
        }
    }
    Ok(Some(nodes))
}

/// Whether all places are before a place.
fn all_below(at: usize, places: &[usize]) -> bool
    ensures { IsTrue result → AreBelow at places.now }
{
    match places {
        [place, rest @ ..] => *place < at && all_below(at, rest),
        [] => true,
    }
}

/// Whether labels rise strictly.
fn all_rise(labels: &[Text]) -> bool
    ensures { IsTrue result → AreRising labels.now }
{
    match labels {
        [first, second, ..] => {
            matches!(first.cmp(second), Ordering::Less) && all_rise(&labels[1..])
        }
        _ => true,
    }
}

/// Whether a symbol takes so many parts, and its labels rise.
fn takes(symbol: &Symbol, count: usize) -> bool
    ensures counted { IsTrue result → count ≡ part_count symbol.now }
    ensures rising { IsTrue result → HasRisingLabels symbol.now }
{
    match symbol {
        Symbol::Arrow => count == 2,
        Symbol::Record(labels) => count == labels.len() && all_rise(labels.as_slice()),
        Symbol::Name(name) => count == name.arity as usize,
    }
}

/// Whether this is a node at that place.
fn is_node_at(at: usize, node: &TypeNode) -> bool
    ensures { IsTrue result → IsNodeAt at node.now }
{
    match node {
        TypeNode::Bound(_) => true,
        TypeNode::Free(_) => true,
        TypeNode::Made(symbol, places) => {
            takes(symbol, places.len()) && all_below(at, places.as_slice())
        }
    }
}

/// Whether each is a node at its place.
fn are_nodes(nodes: &List<TypeNode>) -> bool
    ensures { IsTrue result → AreNodes nodes.now }
{
    for at in 0..nodes.len() {
        match nodes.get(at) {
            Some(node) => {
                if !is_node_at(at, node) {
                    return false;
                }
            }
            None => return false,
        }
    }
    true
}

/// The tree of the nodes of a row. Nodes that are no tree are said to be none.
pub fn unfolded(alloc: Global, text: &[u8]) -> Result<Option<Vec<u8>>, NoMemory> {
    let Some(nodes) = read_nodes(alloc, text)? else {
        return Ok(None);
    };
    if nodes.is_empty() || !are_nodes(&nodes) {
        return Ok(Some(Vec::from_slice(alloc, b"no tree")?));
    }
    let mut out = Vec::new(alloc);
    push_tree(alloc, &mut out, &TypeTree::from_nodes(nodes))?;
    Ok(Some(out))
}
