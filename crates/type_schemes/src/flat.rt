//! Types of a table as trees in one list of nodes, with some of their variables closed. Equal nodes stand there once.

ghost use Rattle.std.specs.Prelude.{◌≡◌, ◌+◌, [], length, slice_get, Some, true, IfOk, IfSome, OnOk};
ghost use Rattle.semantic_objects.specs.Nodes.{AreNodes, IsNodeAt};
ghost use Rattle.type_nodes.specs.Tables.{Has, IsEnd};
ghost use Rattle.type_schemes.specs.Reaching.{IsReached};
ghost use Rattle.type_schemes.specs.Schemes.{HaveAll};
ghost use Rattle.type_schemes.specs.Numbering.{AreNumbers};
ghost use Rattle.type_schemes.specs.Flattening.{AreFlat, IsFlat, AreFlatParts, IsLeaf, IsPlaced, IsTreeAt, IsVariable};

use crate::key::{NodeKey, symbol_key};
use crate::number::Numbers;
use crate::reach::Reached;
use cm_base::{List, NoMemory};
use indexmap::IndexMap;
use semantic_objects::{Symbol, TyId, TypeNode};
use std::alloc::Global;
use type_nodes::TypeBindings;

/// Nodes, each behind its parts, with the place of each id that was done. Of a node with parts the table tells where an
/// equal one may stand.
#[derive(Drop)]
pub(crate) struct Flat {
    pub(crate) nodes: List<TypeNode>,
    pub(crate) places: List<usize>,
    known: IndexMap<NodeKey, usize>,
}

/// Whether a node is this symbol over these places.
fn is_same(node: &TypeNode, symbol: &Symbol, places: &List<usize>) -> bool
    ensures { result ≡ true → node.now ≡ TypeNode.Made symbol.now places.now }
{
    match node {
        TypeNode::Made(other, others) => {
            other.is_same(symbol) && others.as_slice() == places.as_slice()
        }
        _ => false,
    }
}

impl Flat {
    /// No node.
    fn new(alloc: Global) -> Flat
        ensures nodes { result.nodes ≡ [] }
        ensures places { result.places ≡ [] }
    {
        Flat {
            nodes: List::new(alloc),
            places: List::new(alloc),
            known: IndexMap::new(alloc),
        }
    }

    /// The place of an id that was done.
    fn place_at(&self, at: usize) -> Result<usize, NoMemory>
        ensures { IfOk result (λ place. slice_get self.now.places at ≡ Some place) }
    {
        match self.places.get(at) {
            Some(place) => Ok(*place),
            None => Err(NoMemory),
        }
    }

    /// The place at which a symbol over these places stands, if one is known.
    fn known_place(&self, key: &NodeKey, symbol: &Symbol, places: &List<usize>) -> Option<usize>
        ensures { IfSome result (λ place. slice_get self.now.nodes place ≡ Some (TypeNode.Made symbol.now places.now)) }
    {
        match self.known.get(key) {
            Some(place) => match self.nodes.get(*place) {
                Some(node) if is_same(node, symbol, places) => Some(*place),
                _ => None,
            },
            None => None,
        }
    }

    /// One node more.
    fn push(&mut self, node: TypeNode) -> Result<usize, NoMemory>
        ensures { IfOk result (IsPlaced self.old self.new node) }
    {
        let place = self.nodes.len();
        self.nodes.add(node)?;
        Ok(place)
    }

    /// The place of a symbol over places, which is added unless it is known.
    fn add_made(&mut self, symbol: Symbol, places: List<usize>) -> Result<usize, NoMemory>
        ensures { IfOk result (IsPlaced self.old self.new (TypeNode.Made symbol places)) }
    {
        let key = NodeKey {
            symbol: symbol_key(&symbol)?,
            places: places.clone()?.into_vec(),
        };
        match self.known_place(&key, &symbol, &places) {
            Some(place) => Ok(place),
            None => {
                let place = self.nodes.len();
                self.known.insert(key, place)?;
                Ok(self.push(TypeNode::Made(symbol, places))?)
            }
        }
    }

    /// The place of a node, which is added unless it is known. A variable is met once.
    fn add_node(&mut self, node: TypeNode) -> Result<usize, NoMemory>
        ensures { IfOk result (IsPlaced self.old self.new node) }
    {
        match node {
            TypeNode::Bound(i) => Ok(self.push(TypeNode::Bound(i))?),
            TypeNode::Free(number) => Ok(self.push(TypeNode::Free(number))?),
            TypeNode::Made(symbol, places) => Ok(self.add_made(symbol, places)?),
        }
    }
}

/// A variable: by its number where it is closed.
fn flat_variable(numbers: &Numbers, variable: usize) -> Result<TypeNode, NoMemory>
    requires { AreNumbers numbers.now }
    ensures node { IfOk result IsLeaf }
    ensures tree { IfOk result (IsVariable numbers.now.variables variable) }
{
    match numbers.of(variable) {
        Some(number) => match u32::try_from(number) {
            Ok(number) => Ok(TypeNode::Bound(number)),
            Err(_) => Err(NoMemory),
        },
        None => Ok(TypeNode::Free(variable)),
    }
}

/// The place of the tree that an id stands for.
pub(crate) fn flat_place(
    table: &TypeBindings,
    reached: &Reached,
    numbers: &Numbers,
    id: TyId,
    flat: &Flat,
) -> Result<usize, NoMemory>
    requires has { Has table.now id }
    requires reached { IsReached table.now reached.now }
    requires flat { AreFlat table.now numbers.now.variables reached.now.ids flat.now }
    ensures { IfOk result (IsTreeAt table.now numbers.now.variables flat.now.nodes id) }
{
    match reached.place_of(table, id) {
        Some(at) => Ok(flat.place_at(at)?),
        None => Err(NoMemory),
    }
}

/// The places of parts.
fn flat_parts(
    table: &TypeBindings,
    alloc: Global,
    reached: &Reached,
    numbers: &Numbers,
    parts: &List<TyId>,
    flat: &Flat,
) -> Result<List<usize>, NoMemory>
    requires has { HaveAll table.now parts.now }
    requires reached { IsReached table.now reached.now }
    requires flat { AreFlat table.now numbers.now.variables reached.now.ids flat.now }
    ensures { IfOk result (AreFlatParts table.now numbers.now.variables flat.now.nodes parts.now) }
{
    let mut places = List::new(alloc);
    for part in parts.as_slice() {
        let place = flat_place(table, reached, numbers, *part, flat)?;
        places.add(place)?;
    }
    Ok(places)
}

/// A node behind those of its parts.
fn flat_node(
    table: &TypeBindings,
    alloc: Global,
    reached: &Reached,
    numbers: &Numbers,
    id: TyId,
    flat: &Flat,
) -> Result<TypeNode, NoMemory>
    requires has { Has table.now id }
    requires end { IsEnd table.now id }
    requires reached { IsReached table.now reached.now }
    requires numbers { AreNumbers numbers.now }
    requires flat { AreFlat table.now numbers.now.variables reached.now.ids flat.now }
    ensures { IfOk result (IsFlat table.now numbers.now.variables flat.now.nodes id) }
{
    table.is_kept();
    match id {
        TyId::Variable(number) => Ok(flat_variable(numbers, number)?),
        TyId::Made(at) => {
            let node = table.node(at);
            let places = flat_parts(table, alloc, reached, numbers, &node.parts, flat)?;
            Ok(TypeNode::Made(node.symbol.copy()?, places))
        }
    }
}

/// The next id gets its place.
fn add_next(
    table: &TypeBindings,
    alloc: Global,
    reached: &Reached,
    numbers: &Numbers,
    id: TyId,
    flat: &mut Flat,
) -> Result<(), NoMemory>
    requires has { Has table.now id }
    requires end { IsEnd table.now id }
    requires next { slice_get reached.now.ids (length flat.old.places) ≡ Some id }
    requires reached { IsReached table.now reached.now }
    requires numbers { AreNumbers numbers.now }
    requires flat { AreFlat table.now numbers.now.variables reached.now.ids flat.old }
    ensures flat { OnOk result (AreFlat table.now numbers.now.variables reached.now.ids flat.new) }
    ensures counted { OnOk result (length flat.new.places ≡ length flat.old.places + 1) }
{
    let node = flat_node(table, alloc, reached, numbers, id, flat)?;
    let place = flat.add_node(node)?;
    Ok(flat.places.add(place)?)
}

/// All that was reached, each as a node behind those of its parts. Where two are equal, one node is both.
pub(crate) fn flat_nodes(
    table: &TypeBindings,
    alloc: Global,
    reached: &Reached,
    numbers: &Numbers,
) -> Result<Flat, NoMemory>
    requires reached { IsReached table.now reached.now }
    requires numbers { AreNumbers numbers.now }
    ensures { IfOk result (AreFlat table.now numbers.now.variables reached.now.ids) }
{
    let mut flat = Flat::new(alloc);
    for id in reached.ids.as_slice() {
        add_next(table, alloc, reached, numbers, *id, &mut flat)?;
    }
    Ok(flat)
}
