//! Types in which the new names admit equality or don't, as it was chosen.

ghost use Rattle.std.specs.Prelude.{◌≡◌, ◌∷◌, [], map, length, get_or, false, IfOk};
ghost use Rattle.semantic_objects.specs.declared.node.TypeNode.TheVariants as node;
ghost use Rattle.semantic_objects.specs.Trees.{Tree, BindsBelow};
ghost use Rattle.static_semantics.specs.DatatypeInference.{settled_name, settled_symbol};
ghost use Rattle.listed_types.specs.Mapped.{mapped, mapped_node};
ghost use Rattle.datatype_elab.specs.Making.{con_tree, con_scheme, ArgBinds};

use crate::cons::ConRead;
use crate::needs::{NewNames, place_of};
use cm_base::{List, NoMemory};
use listed_types::ListedType;
use semantic_objects::{Scheme, Symbol, TreePart, TyName, TypeNode, TypeTree};
use std::alloc::Global;

/// Whether a type admits equality by a choice.
pub(crate) fn admits(choice: &List<bool>, place: usize) -> bool
    ensures { result ≡ get_or choice.now place false }
{
    match choice.get(place) {
        Some(eq) => *eq,
        None => false,
    }
}

/// A type name with the equality that was chosen for it, if it is a new one.
fn settled_name(new: &NewNames, choice: &List<bool>, name: &TyName) -> Result<TyName, NoMemory>
    requires { new.now.count ≡ length choice.now }
    ensures { IfOk result (λ made. made ≡ settled_name new.now.home new.now.first choice.now name.now) }
{
    match place_of(new, name) {
        Some(place) => {
            let TyName {
                owner,
                number,
                arity,
                ..
            } = name.copy()?;
            Ok(TyName {
                owner,
                number,
                arity,
                eq: admits(choice, place),
            })
        }
        None => name.copy(),
    }
}

/// The same of a symbol.
fn settled_symbol(new: &NewNames, choice: &List<bool>, symbol: &Symbol) -> Result<Symbol, NoMemory>
    requires { new.now.count ≡ length choice.now }
    ensures { IfOk result (λ made. made ≡ settled_symbol new.now.home new.now.first choice.now symbol.now) }
{
    match symbol {
        Symbol::Name(name) => Ok(Symbol::Name(settled_name(new, choice, name)?)),
        _ => symbol.copy(),
    }
}

/// The same of a node.
fn settled_node(new: &NewNames, choice: &List<bool>, item: &TypeNode) -> Result<TypeNode, NoMemory>
    requires { new.now.count ≡ length choice.now }
    ensures { IfOk result (λ made.
        made ≡ mapped_node node.Free (settled_symbol new.now.home new.now.first choice.now) item.now) }
{
    match item {
        TypeNode::Bound(place) => Ok(TypeNode::Bound(*place)),
        TypeNode::Free(variable) => Ok(TypeNode::Free(*variable)),
        TypeNode::Made(symbol, places) => {
            let symbol = settled_symbol(new, choice, symbol)?;
            Ok(TypeNode::Made(symbol, places.clone()?))
        }
    }
}

/// The same of nodes.
fn settled_nodes(
    alloc: Global,
    new: &NewNames,
    choice: &List<bool>,
    nodes: &[TypeNode],
) -> Result<List<TypeNode>, NoMemory>
    requires { new.now.count ≡ length choice.now }
    ensures { IfOk result (λ made.
        made ≡ map (mapped_node node.Free (settled_symbol new.now.home new.now.first choice.now)) nodes.now) }
{
    let mut made = List::new(alloc);
    for node in nodes {
        made.add(settled_node(new, choice, node)?)?;
    }
    Ok(made)
}

/// The same of a tree.
fn settled_tree(
    alloc: Global,
    new: &NewNames,
    choice: &List<bool>,
    tree: &TypeTree,
) -> Result<TypeTree, NoMemory>
    requires { new.now.count ≡ length choice.now }
    ensures { IfOk result (λ made.
        made ≡ mapped Tree.Free (settled_symbol new.now.home new.now.first choice.now) tree.now) }
{
    let nodes = settled_nodes(alloc, new, choice, tree.nodes())?;
    Ok(TypeTree::from_nodes(nodes))
}

/// The type of a constructor: of its datatype, or an arrow to it.
fn con_tree(
    alloc: Global,
    new: &NewNames,
    choice: &List<bool>,
    of: &TypeTree,
    arg: &Option<ListedType>,
) -> Result<TypeTree, NoMemory>
    requires { new.now.count ≡ length choice.now }
    ensures { IfOk result (λ made. made ≡ con_tree new.now.home new.now.first choice.now of.now arg.now) }
{
    match arg {
        Some(arg) => {
            let from = settled_tree(alloc, new, choice, &arg.tree)?;
            let to = of.copy(alloc)?;
            TypeTree::make(alloc, TreePart::Arrow(from, to))
        }
        None => of.copy(alloc),
    }
}

/// The same marks.
fn copy_marks(alloc: Global, marks: &List<bool>) -> Result<List<bool>, NoMemory>
    ensures { IfOk result (λ copy. copy ≡ marks.now) }
{
    let mut copy = List::new(alloc);
    for mark in marks.as_slice() {
        copy.add(*mark)?;
    }
    Ok(copy)
}

/// The scheme of a constructor, over all variables of its datatype's list.
pub(crate) fn con_scheme(
    alloc: Global,
    new: &NewNames,
    choice: &List<bool>,
    marks: &List<bool>,
    of: &TypeTree,
    con: &ConRead,
) -> Result<Scheme, NoMemory>
    requires counted { new.now.count ≡ length choice.now }
    requires of { BindsBelow (length marks.now) of.now }
    requires arg { ArgBinds (length marks.now) con.now.arg }
    ensures { IfOk result (λ scheme.
        scheme ≡ con_scheme new.now.home new.now.first choice.now marks.now of.now con.now) }
{
    let body = con_tree(alloc, new, choice, of, &con.arg)?;
    let copy = copy_marks(alloc, marks)?;
    Scheme::make(copy, body)
}
