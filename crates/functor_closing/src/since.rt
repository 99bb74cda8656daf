//! The type names that a unit made since a number.

ghost use Rattle.std.specs.Prelude.{◌≡◌, ◌++◌, ◌∷◌, [], filter, IfOk, OnOk};
ghost use Rattle.sml_modules.specs.Graphs.{env_at, HasEnv};
ghost use Rattle.static_semantics.specs.DatatypeInference.{same_as_home};
ghost use Rattle.unit_semantics.specs.UnitInference.{is_since, names_since};

use cm_base::{List, NoMemory, Text};
use name_walks::names_of;
use semantic_objects::{Owner, TyName};
use sml_modules::{EnvGraph, EnvId};
use std::alloc::Global;

/// Whether a unit owns a type name.
fn is_own(home: &Text, owner: &Owner) -> bool
    ensures { result ≡ same_as_home home.now owner.now }
{
    match owner {
        Owner::Basis => false,
        Owner::Unit(unit) => unit.as_bytes() == home.as_bytes(),
        Owner::Bound => false,
    }
}

/// Whether a type name is one of the unit with a number from this one on.
fn is_since(home: &Text, number: u64, name: &TyName) -> bool
    ensures { result ≡ is_since home.now number name.now }
{
    let own = is_own(home, &name.owner);
    if !own {
        return false;
    }
    if name.number < number {
        return false;
    }
    true
}

/// Adds such a name behind others, and no other one.
fn keep_since(
    home: &Text,
    number: u64,
    name: &TyName,
    names: &mut List<TyName>,
) -> Result<(), NoMemory>
    ensures { OnOk result (names.new ≡ names.old ++ filter (is_since home.now number) (name.now ∷ [])) }
{
    if is_since(home, number, name) {
        names.add(name.copy()?)
    } else {
        Ok(())
    }
}

/// Those of some names.
fn kept_since(
    alloc: Global,
    home: &Text,
    number: u64,
    all: &[TyName],
) -> Result<List<TyName>, NoMemory>
    ensures { IfOk result (λ names. names ≡ filter (is_since home.now number) all.now) }
{
    let mut names = List::new(alloc);
    for name in all {
        keep_since(home, number, name, &mut names)?;
    }
    Ok(names)
}

/// The type names of the unit with a number from this one on that occur in an environment, in the order of the walk.
/// The Definition of Standard ML (Revised), rule 86.
pub fn names_since(g: &EnvGraph, number: u64, env: EnvId) -> Result<List<TyName>, NoMemory>
    requires { HasEnv g.now env }
    ensures { IfOk result (λ names. names ≡ names_since g.now.home number (env_at g.now env)) }
{
    let home = g.home()?;
    let all = names_of(g, env)?;
    kept_since(g.alloc(), &home, number, all.as_slice())
}
