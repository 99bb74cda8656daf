//! Type functions that are a type name alone.

ghost use Rattle.std.specs.Prelude.{◌≡◌, List, length, IfOk};
ghost use Rattle.std.specs.Option.{option_copied};
ghost use Rattle.semantic_objects.specs.Symbols.{part_count};
ghost use Rattle.semantic_objects.specs.Trees.{Tree, trees_of};
ghost use Rattle.semantic_objects.specs.Nodes.{node_tree, unfolded, trees_at, AreNodes};
ghost use Rattle.unification.specs.Generality.{same_tree, same_trees};
ghost use Rattle.module_semantics.specs.SignatureNames.{variables_from, name_over, name_alone};

use cm_base::{List, NoMemory};
use semantic_objects::{Symbol, TyName, TypeFn, TypeNode};

/// Whether a node is a variable with this number.
fn is_variable(node: &TypeNode, number: usize) -> bool
    ensures { (made : List Tree) → result ≡ same_tree (node_tree made node.now) (Tree.Bound number) }
{
    match node {
        TypeNode::Bound(variable) => *variable as usize == number,
        TypeNode::Free(_) => false,
        TypeNode::Made(_, _) => false,
    }
}

/// Whether the nodes at some places are the variables of a type function in their order.
fn are_variables(nodes: &[TypeNode], places: &[usize]) -> Result<bool, NoMemory>
    requires { AreNodes nodes.now }
    ensures { IfOk result (λ are. are
        ≡ same_trees (trees_of (trees_at (unfolded nodes.now) places.now)) (variables_from (length places.now) 0)) }
{
    let mut number = 0;
    for place in places {
        match nodes.get(*place) {
            Some(node) => {
                if !is_variable(node, number) {
                    return Ok(false);
                }
            }
            None => return Err(NoMemory),
        }
        number += 1;
    }
    Ok(true)
}

/// The type name that a symbol is, if it is one of that arity over the variables of a type function in their order.
fn alone_over<'a>(
    nodes: &[TypeNode],
    symbol: &'a Symbol,
    places: &[usize],
    arity: u32,
) -> Result<Option<&'a TyName>, NoMemory>
    requires nodes { AreNodes nodes.now }
    requires counted { length places.now ≡ part_count symbol.now }
    ensures { IfOk result (λ name. option_copied name
        ≡ name_over arity (Tree.Made symbol.now (trees_of (trees_at (unfolded nodes.now) places.now)))) }
{
    match symbol {
        Symbol::Name(name) => {
            if name.arity != arity {
                return Ok(None);
            }
            if are_variables(nodes, places)? {
                Ok(Some(name))
            } else {
                Ok(None)
            }
        }
        Symbol::Arrow => Ok(None),
        Symbol::Record(_) => Ok(None),
    }
}

/// The type name that a type function applies to its own variables in their order, if it does that.
pub fn alone(function: &TypeFn) -> Result<Option<&TyName>, NoMemory>
    ensures { IfOk result (λ name. option_copied name ≡ name_alone function.now) }
{
    let nodes = function.body.nodes();
    match &nodes[nodes.len() - 1] {
        TypeNode::Made(symbol, places) => {
            alone_over(nodes, symbol, places.as_slice(), function.arity)
        }
        TypeNode::Bound(_) => Ok(None),
        TypeNode::Free(_) => Ok(None),
    }
}
