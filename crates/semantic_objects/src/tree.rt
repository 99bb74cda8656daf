//! Type trees. A tree is one list of nodes that name earlier ones as their parts. So it is copied and dropped by loops,
//! however deep it is, and a part may stand in it more than once.

ghost use Rattle.std.specs.Prelude.{◌≡◌, ◌+◌, ◌<◌, [], ◌∷◌, ◌++◌, IfOk, length};
ghost use Rattle.semantic_objects.specs.Symbols.{part_count, HasRisingLabels};
ghost use Rattle.semantic_objects.specs.Trees.{Tree, trees_of};
ghost use Rattle.semantic_objects.specs.Nodes.{node_tree, unfolded, tree_at, trees_at, root, AreBelow, IsNodeAt, AreNodes, AreTree};
ghost use Rattle.semantic_objects.specs.Adding.{Appended, Placed};
ghost use Rattle.semantic_objects.specs.Parts.{part_tree, IsPart, IsMadeOf, IsReadPart};

use crate::name::TyId;
use crate::node::{TypeNode, add_nodes, copy_nodes};
use crate::part::{SortedFields, TreePart, part_over, sorted_fields};
use crate::shared::SharedNodes;
use crate::symbol::Symbol;
use cm_base::{List, NoMemory};
use std::alloc::Global;
use std::marker::Model;

/// A type tree: a type in which variables of a scheme and of a table may stand.
/// The Definition of Standard ML (Revised), section 4.2.
#[derive(Drop)]
pub struct TypeTree {
    nodes: SharedNodes,
}

impl Model for TypeTree {
    ghost use Rattle.semantic_objects.specs.Trees.{Tree};
    ghost use Rattle.semantic_objects.specs.Codes.{tree_code};

    ghost Value = { Tree };

    ghost coded = { tree_code };

    ghost use Rattle.semantic_objects.specs.Nodes.{root, AreTree};

    ghost view = { λ t. root t.nodes };

    ghost invariant = { λ t. AreTree t.nodes };
}

impl TypeTree {
    /// The tree of a part. The fields of a record may come in any order. An id that isn't a variable is refused as want
    /// of memory is.
    pub fn make(alloc: Global, part: TreePart) -> Result<TypeTree, NoMemory>
        requires { IsPart part }
        ensures { IfOk result (λ tree. IsMadeOf part tree) }
    {
        match part {
            TreePart::Bound(i) => TypeTree::leaf(alloc, TypeNode::Bound(i)),
            TreePart::Free(TyId::Variable(n)) => TypeTree::leaf(alloc, TypeNode::Free(n)),
            TreePart::Free(TyId::Made(_)) => Err(NoMemory),
            TreePart::Record(fields) => {
                let SortedFields { labels, parts } = sorted_fields(alloc, fields)?;
                TypeTree::over(alloc, Symbol::Record(labels), parts)
            }
            TreePart::Arrow(from, to) => {
                let mut parts = List::new(alloc);
                parts.add(from)?;
                TypeTree::over_last(alloc, Symbol::Arrow, &parts, to)
            }
            TreePart::Named(name, args) => TypeTree::over(alloc, Symbol::Name(name), args),
        }
    }

    /// What the tree is, one level of it. Each part is copied with all nodes that stand before it, so a walk of a whole
    /// tree goes by `nodes`.
    pub fn part(&self, alloc: Global) -> Result<TreePart, NoMemory>
        ensures tree { IfOk result (λ part. part_tree part ≡ self.now) }
        ensures order { IfOk result IsReadPart }
    {
        let last = self.nodes.len() - 1;
        match &self.nodes.as_slice()[last] {
            TypeNode::Bound(i) => Ok(TreePart::Bound(*i)),
            TypeNode::Free(n) => Ok(TreePart::Free(TyId::Variable(*n))),
            TypeNode::Made(symbol, places) => {
                let parts = trees_of_places(alloc, self.nodes.as_slice(), places)?;
                part_over(alloc, symbol, parts)
            }
        }
    }

    /// The tree of these nodes, which may share parts.
    pub fn from_nodes(nodes: List<TypeNode>) -> TypeTree
        requires { AreTree nodes }
        ensures { result ≡ root nodes }
    {
        TypeTree {
            nodes: SharedNodes::new(nodes),
        }
    }

    /// The nodes, of which the last one is the tree.
    pub fn nodes(&self) -> &[TypeNode]
        ensures tree { root result.now ≡ self.now }
        ensures nodes { AreTree result.now }
    {
        self.nodes.as_slice()
    }

    /// Another tree, equal to this one, with the same parts shared. One of a scheme is copied at once, however many nodes
    /// it has.
    pub fn copy(&self, alloc: Global) -> Result<TypeTree, NoMemory>
        ensures { IfOk result (λ copy. copy ≡ self.now) }
    {
        Ok(TypeTree {
            nodes: self.nodes.copy(alloc)?,
        })
    }

    /// The same tree, whose nodes are shared by its copies from now on.
    pub(crate) fn shared(self) -> Result<TypeTree, NoMemory>
        ensures { IfOk result (λ shared. shared ≡ self) }
    {
        let TypeTree { nodes } = self;
        Ok(TypeTree {
            nodes: nodes.shared()?,
        })
    }

    /// A tree of one node.
    fn leaf(alloc: Global, node: TypeNode) -> Result<TypeTree, NoMemory>
        requires { IsNodeAt 0 node }
        ensures { IfOk result (λ tree. tree ≡ node_tree [] node) }
    {
        let mut nodes = List::new(alloc);
        nodes.add(node)?;
        Ok(TypeTree::from_nodes(nodes))
    }

    /// A symbol over trees. The nodes of the last one are moved and not copied.
    fn over(alloc: Global, symbol: Symbol, parts: List<TypeTree>) -> Result<TypeTree, NoMemory>
        requires counted { length parts ≡ part_count symbol }
        requires rising { HasRisingLabels symbol }
        ensures { IfOk result (λ tree. tree ≡ Tree.Made symbol (trees_of parts)) }
    {
        let mut parts = parts;
        match parts.pop() {
            None => TypeTree::leaf(alloc, TypeNode::Made(symbol, List::new(alloc))),
            Some(last) => TypeTree::over_last(alloc, symbol, &parts, last),
        }
    }

    /// A symbol over trees and one more, whose nodes are moved.
    fn over_last(
        alloc: Global,
        symbol: Symbol,
        parts: &List<TypeTree>,
        last: TypeTree,
    ) -> Result<TypeTree, NoMemory>
        requires counted { length parts.now + 1 ≡ part_count symbol }
        requires rising { HasRisingLabels symbol }
        ensures { IfOk result (λ tree. tree ≡ Tree.Made symbol (trees_of (parts.now ++ last ∷ []))) }
    {
        let TypeTree { nodes } = last;
        let mut nodes = nodes.into_list(alloc)?;
        let at = nodes.len() - 1;
        let mut places = add_trees(alloc, &mut nodes, parts)?;
        places.add(at)?;
        nodes.add(TypeNode::Made(symbol, places))?;
        Ok(TypeTree::from_nodes(nodes))
    }

    /// Adds the nodes of this tree to others, and answers the place of its last one.
    fn add_to(&self, alloc: Global, nodes: &mut List<TypeNode>) -> Result<usize, NoMemory>
        ensures { IfOk result (λ at. Appended nodes.old nodes.new at self.now) }
    {
        let by = nodes.len();
        add_nodes(alloc, nodes, self.nodes.as_slice(), by)?;
        Ok(nodes.len() - 1)
    }
}

/// Adds the nodes of some trees, and answers the places of their last ones.
fn add_trees(
    alloc: Global,
    nodes: &mut List<TypeNode>,
    parts: &List<TypeTree>,
) -> Result<List<usize>, NoMemory>
    ensures { IfOk result (λ places. Placed nodes.old nodes.new places parts.now) }
{
    let mut places = List::new(alloc);
    for part in parts.as_slice() {
        let at = part.add_to(alloc, nodes)?;
        places.add(at)?;
    }
    Ok(places)
}

/// The tree at a place.
fn tree_of_place(alloc: Global, nodes: &[TypeNode], at: usize) -> Result<TypeTree, NoMemory>
    requires within { at < length nodes.now }
    requires nodes { AreNodes nodes.now }
    ensures { IfOk result (λ tree. tree ≡ tree_at nodes.now at) }
{
    Ok(TypeTree::from_nodes(copy_nodes(alloc, &nodes[..at + 1])?))
}

/// The trees at some places.
fn trees_of_places(
    alloc: Global,
    nodes: &[TypeNode],
    places: &List<usize>,
) -> Result<List<TypeTree>, NoMemory>
    requires within { AreBelow (length nodes.now) places.now }
    requires nodes { AreNodes nodes.now }
    ensures { IfOk result (λ trees. trees ≡ trees_at (unfolded nodes.now) places.now) }
{
    let mut trees = List::new(alloc);
    for place in places.as_slice() {
        trees.add(tree_of_place(alloc, nodes, *place)?)?;
    }
    Ok(trees)
}
