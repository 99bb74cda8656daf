//! Types that are compared in a table, where what is shared is compared once.

ghost use Rattle.std.specs.Prelude.{◌≡◌, IfOk, false};
ghost use Rattle.env_parts.specs.Types.{holds_free};
ghost use Rattle.unification.specs.Generality.{same_tree};
ghost use Rattle.type_nodes.specs.Tables.{IsFrontOf};
ghost use Rattle.variable_names.specs.Named.{named, IsApart};

use cm_base::{List, NoMemory};
use semantic_objects::{TypeFn, TypeTree};
use sml_types::{TypeFault, TypeTable};
use std::alloc::Global;
use variable_names::named;

/// A type as a type function without arguments, with names in the place of its own variables.
fn without_variables(alloc: Global, tree: &TypeTree) -> Result<TypeFn, NoMemory>
    ensures body { IfOk result (λ made. made.body ≡ named tree.now) }
    ensures apart { IfOk result (λ made. IsApart tree.now) }
{
    let body = named(alloc, tree)?;
    Ok(TypeFn { arity: 0, body })
}

/// Whether the types of two type functions without arguments, in which no variable of the table stands, are one. What
/// was made for it stays in the table.
fn compare(
    t: &mut TypeTable,
    alloc: Global,
    left: &TypeFn,
    right: &TypeFn,
) -> Result<bool, NoMemory>
    requires left { holds_free left.now.body ≡ false }
    requires right { holds_free right.now.body ≡ false }
    ensures same { IfOk result (λ same. same ≡ same_tree left.now.body right.now.body) }
    ensures front { IsFrontOf t.old t.new }
{
    let none = List::new(alloc);
    let this = t.apply(left, &none)?;
    let that = t.apply(right, &none)?;
    t.is_kept();
    match t.unify(this, that) {
        Ok(()) => Ok(true),
        Err(TypeFault::Clash(_, _)) => Ok(false),
        Err(TypeFault::Circular(_, _)) => Ok(false),
        Err(TypeFault::NotEquality(_)) => Ok(false),
        Err(TypeFault::NoMemory) => Err(NoMemory),
    }
}

/// Whether two types, in which no variable of the table stands, are one, in as many steps as they have nodes: what they
/// share inside is compared once, and no variable is made, however many they have.
pub(crate) fn are_one(
    t: &mut TypeTable,
    alloc: Global,
    left: &TypeTree,
    right: &TypeTree,
) -> Result<bool, NoMemory>
    requires left { holds_free left.now ≡ false }
    requires right { holds_free right.now ≡ false }
    ensures same { IfOk result (λ same. same ≡ same_tree left.now right.now) }
    ensures table { t.new ≡ t.old }
{
    let this = without_variables(alloc, left)?;
    let that = without_variables(alloc, right)?;
    let before = t.mark();
    let same = compare(t, alloc, &this, &that);
    t.undo(&before);
    same
}
