//! New type names of the unit in place of others.

ghost use Rattle.std.specs.Prelude.{◌≡◌, IfOk, OnOk, map};
ghost use Rattle.semantic_objects.specs.Trees.{Tree};
ghost use Rattle.static_semantics.specs.DatatypeInference.{counted, own_type};
ghost use Rattle.type_walks.specs.Replaced.{rows_of};
ghost use Rattle.module_semantics.specs.SignatureNames.{rows_between};
ghost use Rattle.signature_sealing.specs.Sealing.{new_names_of, with_names, MayMakeNames};

use cm_base::{List, NoMemory};
use environment_walks::{Realisation, Replace};
use semantic_objects::{TreePart, TyName, TypeFn, TypeTree};
use sml_modules::EnvGraph;
use std::alloc::Global;

/// New type names, and the realisation that puts them in place of others.
#[derive(Drop)]
pub struct NewNames {
    pub names: List<TyName>,
    pub by: Realisation,
}

/// So many variables of a type function, in their order.
fn variables(alloc: Global, count: u32) -> Result<List<TypeTree>, NoMemory>
    ensures { IfOk result (λ trees. trees ≡ map Tree.Bound (counted count 0)) }
{
    let mut trees = List::new(alloc);
    for at in 0..count {
        trees.add(TypeTree::make(alloc, TreePart::Bound(at))?)?;
    }
    Ok(trees)
}

/// The type function of a type name alone: the name with its variables in their order.
pub fn own_function(alloc: Global, name: &TyName) -> Result<TypeFn, NoMemory>
    ensures { IfOk result (λ function. function ≡ (own_type name.now).function) }
{
    let args = variables(alloc, name.arity)?;
    let body = TypeTree::make(alloc, TreePart::Named(name.copy()?, args))?;
    Ok(TypeFn {
        arity: name.arity,
        body,
    })
}

/// New names of the unit for some names, one for each in their order, of the same arity and equality. After want of
/// memory names may have been made. The Definition of Standard ML (Revised), rules 53, 54 and 63.
pub fn new_names(g: &mut EnvGraph, olds: &[TyName]) -> Result<NewNames, NoMemory>
    ensures names { IfOk result (λ new. new.names ≡ new_names_of g.old olds.now) }
    ensures rows { IfOk result (λ new. rows_of new.by.list ≡ rows_between olds.now (new_names_of g.old olds.now)) }
    ensures made { OnOk result (g.new ≡ with_names (new_names_of g.old olds.now) g.old) }
    ensures kept { MayMakeNames g.old g.new }
{
    let alloc = g.alloc();
    let mut names = List::new(alloc);
    let mut list = List::new(alloc);
    for old in olds {
        let new = g.new_name(old.arity, old.eq)?;
        let by = own_function(alloc, &new)?;
        list.add(Replace {
            name: old.copy()?,
            by,
        })?;
        names.add(new)?;
    }
    Ok(NewNames {
        names,
        by: Realisation { list },
    })
}
