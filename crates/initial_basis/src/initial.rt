//! The initial basis as a top of a graph.

ghost use Rattle.std.specs.Prelude.{◌≡◌, ◌++◌, ◌∷◌, [], IfOk, OnOk, OnErr, if◌then◌else◌};
ghost use Rattle.semantic_objects.specs.Environments.{env_of};
ghost use Rattle.semantic_objects.specs.Tables.{with_all};
ghost use Rattle.semantic_objects.specs.declared.entry.VidStatus.TheVariants.{Variable};
ghost use Rattle.sml_modules.specs.Graphs.{GivesEnv, GivesTop, HasEnvs, structure_rows, type_rows, value_rows};
ghost use Rattle.initial_basis.specs.Basis.{basis_names, basis_type_names, basis_types, basis_values, basis_structures, values_of};
ghost use Rattle.initial_basis.specs.Basis.{basis_top, basis_env, with_names, OnlyAdds, GivesStructures};

use crate::entries::add_values;
use crate::row::Row;
use crate::table;
use crate::type_names::{NamedName, names_of, type_names};
use crate::types::{types_of, unit_type};
use cm_base::{List, NoMemory, Options, Text};
use semantic_objects::{TyName, VidStatus};
use sml_modules::{EnvGraph, EnvId, NamedEnv, NamedType, NamedValue, TopId};
use std::alloc::Global;

/// The type names of the initial basis.
#[tactic(auto, unfolding(crate::specs::Basis::basis_names))]
fn basis_names(alloc: Global) -> Result<List<NamedName>, NoMemory>
    ensures { IfOk result (λ names. names ≡ basis_names) }
{
    let rows = table::type_rows(alloc)?;
    names_of(alloc, &rows)
}

/// The type names of the initial basis, by number.
pub fn basis_type_names(alloc: Global) -> Result<List<TyName>, NoMemory>
    ensures { IfOk result (λ names. names ≡ basis_type_names) }
{
    let rows = basis_names(alloc)?;
    type_names(alloc, &rows)
}

/// The type structures of the initial basis.
#[tactic(auto, unfolding(crate::specs::Basis::basis_types))]
fn basis_types(alloc: Global, names: &List<NamedName>) -> Result<List<NamedType>, NoMemory>
    requires { names.now ≡ basis_names }
    ensures { IfOk result (λ types. types ≡ basis_types) }
{
    let rows = table::type_rows(alloc)?;
    let cons = table::constructor_rows(alloc)?;
    let mut types = types_of(alloc, names.as_slice(), &cons, &rows)?;
    types.add(unit_type(alloc)?)?;
    Ok(types)
}

/// The values of the initial basis: constructors, exceptions and variables.
#[tactic(auto, unfolding(crate::specs::Basis::basis_values))]
fn basis_values(alloc: Global, names: &List<NamedName>) -> Result<List<NamedValue>, NoMemory>
    requires { names.now ≡ basis_names }
    ensures { IfOk result (λ values. values ≡ basis_values) }
{
    let names = names.as_slice();
    let cons = table::constructor_rows(alloc)?;
    let exceptions = table::exception_rows(alloc)?;
    let variables = table::value_rows(alloc)?;
    let mut values = List::new(alloc);
    add_values(alloc, names, VidStatus::Constructor, &cons, &mut values)?;
    add_values(alloc, names, VidStatus::Exception, &exceptions, &mut values)?;
    add_values(alloc, names, VidStatus::Variable, &variables, &mut values)?;
    Ok(values)
}

/// An environment of values alone.
fn env_of_rows(
    alloc: Global,
    g: &mut EnvGraph,
    names: &List<NamedName>,
    rows: &List<Row>,
) -> Result<EnvId, NoMemory>
    ensures ok { IfOk result (GivesEnv g.old g.new
        (env_of [] [] (with_all (value_rows (values_of names.now Variable rows.now)) []))) }
    ensures err { OnErr result (g.new ≡ g.old) }
{
    let mut values = List::new(alloc);
    add_values(
        alloc,
        names.as_slice(),
        VidStatus::Variable,
        rows,
        &mut values,
    )?;
    g.make_env(&List::new(alloc), List::new(alloc), values)
}

/// Adds a structure with its name.
fn add_structure(
    alloc: Global,
    structures: &mut List<NamedEnv>,
    name: &[u8],
    env: EnvId,
) -> Result<(), NoMemory>
    ensures { OnOk result (structures.new ≡ structures.old ++ record { name = name.now; env = env } ∷ []) }
{
    let name = Text::from_bytes(alloc, name)?;
    structures.add(NamedEnv { name, env })
}

/// The built-in structures with their names.
fn with_names(
    alloc: Global,
    int: EnvId,
    string: EnvId,
    char: EnvId,
) -> Result<List<NamedEnv>, NoMemory>
    ensures { IfOk result (λ structures. structures ≡ with_names int string char) }
{
    let mut structures = List::new(alloc);
    add_structure(alloc, &mut structures, b"Int", int)?;
    add_structure(alloc, &mut structures, b"String", string)?;
    add_structure(alloc, &mut structures, b"Char", char)?;
    Ok(structures)
}

/// The built-in structures.
#[tactic(auto, using(crate::proofs::Adding::adding))]
fn built_in(
    alloc: Global,
    g: &mut EnvGraph,
    names: &List<NamedName>,
) -> Result<List<NamedEnv>, NoMemory>
    requires { names.now ≡ basis_names }
    ensures ok { IfOk result (GivesStructures g.old g.new basis_structures) }
    ensures err { OnErr result (OnlyAdds g.old g.new) }
{
    let int_rows = table::int_rows(alloc)?;
    let string_rows = table::string_rows(alloc)?;
    let char_rows = table::char_rows(alloc)?;
    let int = env_of_rows(alloc, g, names, &int_rows)?;
    let string = env_of_rows(alloc, g, names, &string_rows)?;
    let char = env_of_rows(alloc, g, names, &char_rows)?;
    with_names(alloc, int, string, char)
}

/// The built-in structures, where the options have them.
#[tactic(auto, using(crate::proofs::Adding::adding))]
fn structures_of(
    alloc: Global,
    g: &mut EnvGraph,
    names: &List<NamedName>,
    options: Options,
) -> Result<List<NamedEnv>, NoMemory>
    requires { names.now ≡ basis_names }
    ensures ok { IfOk result (GivesStructures g.old g.new (if options.nobasis then [] else basis_structures)) }
    ensures err { OnErr result (OnlyAdds g.old g.new) }
{
    if options.nobasis {
        Ok(List::new(alloc))
    } else {
        built_in(alloc, g, names)
    }
}

/// The initial environment.
#[tactic(auto, using(crate::proofs::Adding::adding))]
fn basis_env(alloc: Global, g: &mut EnvGraph, options: Options) -> Result<EnvId, NoMemory>
    ensures ok { IfOk result (GivesEnv g.old g.new (basis_env options.nobasis)) }
    ensures err { OnErr result (OnlyAdds g.old g.new) }
{
    let names = basis_names(alloc)?;
    let types = basis_types(alloc, &names)?;
    let values = basis_values(alloc, &names)?;
    let structures = structures_of(alloc, g, &names, options)?;
    g.make_env(&structures, types, values)
}

/// The initial basis: what stands at the top where a unit begins. With `nobasis` the built-in structures are gone, and
/// all else stays. Want of memory may leave nodes in the graph, which stand for nothing that was there before.
#[tactic(auto, using(crate::proofs::Adding::adding))]
pub fn basis(alloc: Global, g: &mut EnvGraph, options: Options) -> Result<TopId, NoMemory>
    ensures ok { IfOk result (GivesTop g.old g.new (basis_top options.nobasis)) }
    ensures err { OnErr result (OnlyAdds g.old g.new) }
{
    let env = basis_env(alloc, g, options)?;
    let top = g.empty_top()?;
    g.with_env(top, env)
}
