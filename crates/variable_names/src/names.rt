//! Types in which the variables of a type function stand as type names, so that they are compared without making one for
//! each argument that the function takes.

ghost use Rattle.std.specs.Prelude.{◌≡◌, map, false, IfOk};
ghost use Rattle.variable_names.specs.Named.{name_of, named, named_node};
ghost use Rattle.variable_names.specs.Named.{IsApartSymbol, IsApartNode, AreApartNodes, IsApart};

use cm_base::{List, NoMemory};
use semantic_objects::{Owner, Symbol, TyName, TypeNode, TypeTree};
use std::alloc::Global;

/// The names of the basis from this number on stand for variables.
pub const FIRST: u64 = 1 << 63;

/// The name that stands for a variable.
fn name_of(variable: u32) -> TyName
    ensures { result ≡ name_of variable }
{
    TyName {
        owner: Owner::Basis,
        number: FIRST + variable as u64,
        arity: 0,
        eq: false,
    }
}

/// Whether a symbol may be taken for a variable's name.
fn is_taken(symbol: &Symbol) -> bool
    ensures { result ≡ false → IsApartSymbol symbol.now }
{
    match symbol {
        Symbol::Arrow => false,
        Symbol::Record(_) => false,
        Symbol::Name(name) => name.number >= FIRST,
    }
}

/// A node with a variable's name in the place of the variable.
fn named_node(alloc: Global, node: &TypeNode) -> Result<TypeNode, NoMemory>
    ensures node { IfOk result (λ made. made ≡ named_node node.now) }
    ensures apart { IfOk result (λ made. IsApartNode node.now) }
{
    match node {
        TypeNode::Bound(variable) => Ok(TypeNode::Made(
            Symbol::Name(name_of(*variable)),
            List::new(alloc),
        )),
        TypeNode::Free(number) => Ok(TypeNode::Free(*number)),
        TypeNode::Made(symbol, places) => {
            if is_taken(symbol) {
                return Err(NoMemory);
            }
            Ok(TypeNode::Made(symbol.copy()?, places.clone()?))
        }
    }
}

/// Such nodes.
fn named_nodes(alloc: Global, nodes: &[TypeNode]) -> Result<List<TypeNode>, NoMemory>
    ensures nodes { IfOk result (λ made. made ≡ map named_node nodes.now) }
    ensures apart { IfOk result (λ made. AreApartNodes nodes.now) }
{
    let mut made = List::new(alloc);
    for node in nodes {
        made.add(named_node(alloc, node)?)?;
    }
    Ok(made)
}

/// A type with names in the place of its own variables. A type name with a number that no unit comes to is refused as
/// want of memory is.
pub fn named(alloc: Global, tree: &TypeTree) -> Result<TypeTree, NoMemory>
    ensures tree { IfOk result (λ made. made ≡ named tree.now) }
    ensures apart { IfOk result (λ made. IsApart tree.now) }
{
    let nodes = named_nodes(alloc, tree.nodes())?;
    Ok(TypeTree::from_nodes(nodes))
}
