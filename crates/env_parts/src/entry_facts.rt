//! The facts of a type: each node of it is gone through once, however often it stands in the tree.

ghost use Rattle.std.specs.Prelude.{◌≡◌, [], ◌∷◌, IfOk, false};
ghost use Rattle.semantic_objects.specs.Trees.{Tree, Trees};
ghost use Rattle.env_parts.specs.Types.{facts_of_tree, facts_of, con_types, type_types, value_types, no_facts, both};
ghost use Rattle.env_parts.specs.TypeSteps.{over, over_all, facts_at, facts_of_node};

use crate::facts::Facts;
use cm_base::{List, NoMemory};
use semantic_objects::{ConEntry, Owner, Symbol, TypeNode, TypeStr, TypeTree, ValueEntry};
use std::alloc::Global;

/// One more than the largest size of a type that is accepted.
const CAP: u32 = 65_537;

/// The facts of a type with one part more.
fn over(whole: Facts, part: Facts) -> Facts
    ensures { result ≡ over whole part }
{
    Facts {
        has_free: whole.has_free || part.has_free,
        largest: whole.largest.saturating_add(part.largest).min(CAP),
        has_bound_name: whole.has_bound_name || part.has_bound_name,
        has_unit_name: whole.has_unit_name || part.has_unit_name,
    }
}

/// The facts of a symbol before its parts.
fn symbol_facts(symbol: &Symbol) -> Facts
    ensures { result ≡ facts_of_tree (Tree.Made symbol.now Trees.Nil) }
{
    let (has_bound_name, has_unit_name) = match symbol {
        Symbol::Arrow => (false, false),
        Symbol::Record(_) => (false, false),
        Symbol::Name(name) => match &name.owner {
            Owner::Basis => (false, false),
            Owner::Unit(_) => (false, true),
            Owner::Bound => (true, false),
        },
    };
    Facts {
        has_free: false,
        largest: 1,
        has_bound_name,
        has_unit_name,
    }
}

/// The facts of a symbol over parts, from those of the nodes before it.
fn made_facts(made: &List<Facts>, symbol: &Symbol, places: &List<usize>) -> Result<Facts, NoMemory>
    ensures { IfOk result (λ facts. facts ≡ over_all (facts_of_tree (Tree.Made symbol.now Trees.Nil)) (facts_at made.now places.now)) }
{
    let mut facts = symbol_facts(symbol);
    for place in places.as_slice() {
        match made.get(*place) {
            Some(part) => facts = over(facts, *part),
            None => return Err(NoMemory),
        }
    }
    Ok(facts)
}

/// The facts of a node, from those of the nodes before it.
fn node_facts(made: &List<Facts>, node: &TypeNode) -> Result<Facts, NoMemory>
    ensures { IfOk result (λ facts. facts ≡ facts_of_node made.now node.now) }
{
    match node {
        TypeNode::Bound(_) => Ok(leaf_facts(false)),
        TypeNode::Free(_) => Ok(leaf_facts(true)),
        TypeNode::Made(symbol, places) => made_facts(made, symbol, places),
    }
}

/// The facts of a variable.
fn leaf_facts(has_free: bool) -> Facts
    ensures { result ≡ record { has_free = has_free; largest = 1; has_bound_name = false; has_unit_name = false } }
{
    Facts {
        has_free,
        largest: 1,
        has_bound_name: false,
        has_unit_name: false,
    }
}

/// The facts of a type.
fn tree_facts(alloc: Global, tree: &TypeTree) -> Result<Facts, NoMemory>
    ensures { IfOk result (λ facts. facts ≡ facts_of_tree tree.now) }
{
    let nodes = tree.nodes();
    let mut made = List::new(alloc);
    for node in nodes {
        let facts = node_facts(&made, node)?;
        made.add(facts)?;
    }
    match made.pop() {
        Some(facts) => Ok(facts),
        None => Err(NoMemory),
    }
}

/// The facts of constructors.
fn con_facts(alloc: Global, cons: &List<ConEntry>) -> Result<Facts, NoMemory>
    ensures { IfOk result (λ facts. facts ≡ facts_of (con_types cons.now)) }
{
    let mut facts = Facts::none();
    for con in cons.as_slice() {
        facts = facts.with(tree_facts(alloc, con.scheme.body())?);
    }
    Ok(facts)
}

/// The facts of a type structure.
pub fn type_facts(alloc: Global, entry: &TypeStr) -> Result<Facts, NoMemory>
    ensures { IfOk result (λ facts. facts ≡ facts_of (type_types entry.now)) }
{
    let function = tree_facts(alloc, &entry.function.body)?;
    Ok(function.with(con_facts(alloc, &entry.cons)?))
}

/// The facts of a value.
pub fn value_facts(alloc: Global, entry: &ValueEntry) -> Result<Facts, NoMemory>
    ensures { IfOk result (λ facts. facts ≡ facts_of (value_types entry.now)) }
{
    tree_facts(alloc, entry.scheme.body())
}
