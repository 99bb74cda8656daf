//! Type names applied to their own variables.

ghost use Rattle.std.specs.Prelude.{◌≡◌, map, IfOk};
ghost use Rattle.semantic_objects.specs.Trees.{Tree};
ghost use Rattle.static_semantics.specs.DatatypeInference.{counted, own_type};
ghost use Rattle.datatype_elab.specs.OwnTypes.{own_tree};

use cm_base::{List, NoMemory};
use semantic_objects::{TreePart, TyName, TypeFn, TypeStr, TypeTree};
use std::alloc::Global;

/// The first variables of a list.
fn bound_trees(alloc: Global, count: u32) -> Result<List<TypeTree>, NoMemory>
    ensures { IfOk result (λ trees. trees ≡ map Tree.Bound (counted count 0)) }
{
    let mut trees = List::new(alloc);
    for place in 0..count {
        trees.add(TypeTree::make(alloc, TreePart::Bound(place))?)?;
    }
    Ok(trees)
}

/// A type name applied to the variables of its list, in the list's order.
pub(crate) fn own_tree(alloc: Global, name: &TyName) -> Result<TypeTree, NoMemory>
    ensures { IfOk result (λ tree. tree ≡ own_tree name.now) }
{
    let args = bound_trees(alloc, name.arity)?;
    TypeTree::make(alloc, TreePart::Named(name.copy()?, args))
}

/// The type structure of a type name alone.
pub(crate) fn own_type(alloc: Global, name: &TyName) -> Result<TypeStr, NoMemory>
    ensures { IfOk result (λ str. str ≡ own_type name.now) }
{
    Ok(TypeStr {
        function: TypeFn {
            arity: name.arity,
            body: own_tree(alloc, name)?,
        },
        cons: List::new(alloc),
    })
}
