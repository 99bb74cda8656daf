//! The datatypes of a declaration in a scope, with all that they are refused for.

ghost use Rattle.std.specs.Prelude.{◌≡◌, length, map, IfOk};
ghost use Rattle.type_nodes.specs.Tables.{Table};
ghost use Rattle.bare_phrases.specs.PhraseOf.{dat_phrase};
ghost use Rattle.static_semantics.specs.DatatypeInference.{equality_choice};
ghost use Rattle.sml_modules.specs.Graphs.{type_rows};
ghost use Rattle.core_scopes.specs.Scopes.{IsScopeOf};
ghost use Rattle.datatype_elab.specs.Listing.{dat_of, AreDats};
ghost use Rattle.datatype_elab.specs.Declaring.{AreDatsUnder, AreRead};

use crate::choice::choose;
use crate::dats::{DatRead, read_dats};
use crate::names::{listed_types, new_types};
use crate::needs::NewNames;
use cm_base::{Fault, List, NoMemory, Text};
use core_scopes::{Made, Scope};
use sml_modules::{EnvGraph, NamedType};
use sml_trees::DatBind;
use sml_types::TypeTable;
use std::alloc::Global;

/// Datatypes, and which of them admit equality.
#[derive(Drop)]
pub(crate) struct Datatypes {
    pub(crate) dats: List<DatRead>,
    pub(crate) choice: List<bool>,
}

/// Datatypes where such types are in scope besides. The scope is left as it was.
fn read_under<V: Copy + Drop>(
    alloc: Global,
    g: &EnvGraph,
    t: &mut TypeTable,
    scope: &mut Scope<V>,
    refused: &[Text],
    types: List<NamedType>,
    binds: &[DatBind],
) -> Result<List<DatRead>, Fault>
    requires { IsScopeOf g.now scope.old }
    ensures dats { AreDatsUnder g.now t.old scope.old refused.now (type_rows types) (map dat_phrase binds.now) t.new result }
    ensures scope { scope.new ≡ scope.old }
{
    let before = scope.mark();
    scope.bind_made(Made {
        structures: List::new(alloc),
        types,
        values: List::new(alloc),
    })?;
    let dats = read_dats(alloc, g, t, scope, refused, binds);
    scope.leave(before);
    dats
}

/// Which datatypes admit equality.
fn chosen(alloc: Global, g: &EnvGraph, dats: &List<DatRead>) -> Result<List<bool>, NoMemory>
    ensures { IfOk result (λ choice. (t : Table) → AreDats t dats.now
        → choice ≡ equality_choice g.now.home (length g.now.made) (map (dat_of t) dats.now)) }
{
    let new = NewNames {
        home: g.home()?,
        first: g.made(),
        count: dats.len(),
    };
    choose(alloc, &new, dats)
}

/// The datatypes of a declaration: 40 at a type that stands before in it, before any constructor is looked at; then in
/// written order the faults of each list of type variables and, for each constructor, 34 at a name of `refused`, 40 at
/// one that a constructor before has, and what its type is refused for. The scope is left as it was.
/// The Definition of Standard ML (Revised), rules 17, 28 and 29, and section 4.9.
pub(crate) fn read_datatypes<V: Copy + Drop>(
    alloc: Global,
    g: &EnvGraph,
    t: &mut TypeTable,
    scope: &mut Scope<V>,
    refused: &[Text],
    binds: &[DatBind],
) -> Result<Datatypes, Fault>
    requires { IsScopeOf g.now scope.old }
    ensures read { AreRead g.now t.old scope.old refused.now (map dat_phrase binds.now) t.new result }
    ensures scope { scope.new ≡ scope.old }
{
    let rows = new_types(alloc, g, binds)?;
    let types = listed_types(alloc, &rows)?;
    let dats = read_under(alloc, g, t, scope, refused, types, binds)?;
    let choice = chosen(alloc, g, &dats)?;
    Ok(Datatypes { dats, choice })
}
