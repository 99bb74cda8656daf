//! The types of a declaration while their constructors are looked at.

ghost use Rattle.std.specs.Prelude.{◌≡◌, ◌+◌, [], map, length, IfOk};
ghost use Rattle.semantic_objects.specs.Tables.{with_all};
ghost use Rattle.semantic_objects.specs.Environments.{env_of, empty_env};
ghost use Rattle.bare_phrases.specs.PhraseOf.{dat_phrase};
ghost use Rattle.sml_modules.specs.Graphs.{type_rows};
ghost use Rattle.static_semantics.specs.Inferring.{Scope};
ghost use Rattle.static_semantics.specs.DatatypeInference.{new_types, own_name};
ghost use Rattle.type_phrases.specs.Inferred.{Answers};

use crate::checks::{is_bound, refuse_where};
use crate::trees::own_type;
use cm_base::{Fault, List, NoMemory};
use env_parts::copy_type;
use name_trails::NameTrail;
use semantic_objects::{Owner, TyName, TypeStr};
use sml_modules::{EnvGraph, NamedType};
use sml_trees::DatBind;
use std::alloc::Global;

/// The name of the unit with such a number.
pub(crate) fn own_name(
    g: &EnvGraph,
    number: u64,
    arity: usize,
    eq: bool,
) -> Result<TyName, NoMemory>
    ensures { IfOk result (λ name. name ≡ own_name g.now.home number arity eq) }
{
    match u32::try_from(arity) {
        Ok(arity) => Ok(TyName {
            owner: Owner::Unit(g.home()?),
            number,
            arity,
            eq,
        }),
        Err(_) => Err(NoMemory),
    }
}

/// Each type by its text, with a name that admits equality: 40 at one that is before.
pub(crate) fn new_types(
    alloc: Global,
    g: &EnvGraph,
    binds: &[DatBind],
) -> Result<NameTrail<TypeStr>, Fault>
    ensures { (inner : Scope) → inner.home ≡ g.now.home
        → Answers (new_types inner (map dat_phrase binds.now) (length g.now.made) empty_env)
        (λ rows. env_of [] (with_all rows []) []) result }
{
    let mut rows = NameTrail::new(alloc);
    let mut number = g.made();
    for bind in binds {
        refuse_where(alloc, g, is_bound(&rows, &bind.name.text), 40, &bind.name)?;
        let name = own_name(g, number, bind.tyvars.len(), true)?;
        let entry = own_type(alloc, &name)?;
        let text = bind.name.text.copy()?;
        rows.bind(text, entry)?;
        number = next(number)?;
    }
    Ok(rows)
}

/// The number after this one.
pub(crate) fn next(number: u64) -> Result<u64, NoMemory>
    ensures { IfOk result (λ after. after ≡ number + 1) }
{
    match number.checked_add(1) {
        Some(after) => Ok(after),
        None => Err(NoMemory),
    }
}

/// Types with their names, as a list of a scope.
pub(crate) fn listed_types(
    alloc: Global,
    rows: &NameTrail<TypeStr>,
) -> Result<List<NamedType>, NoMemory>
    ensures { IfOk result (λ list. type_rows list ≡ rows.now) }
{
    let mut list = List::new(alloc);
    for row in rows.rows() {
        list.add(NamedType {
            name: row.0.copy()?,
            entry: copy_type(alloc, &row.1)?,
        })?;
    }
    Ok(list)
}
