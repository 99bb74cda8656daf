//! The realisation by which an environment may match a signature.

ghost use Rattle.std.specs.Prelude.{◌≡◌, [], IfOk};
ghost use Rattle.std.specs.List.{list_any};
ghost use Rattle.unification.specs.Types.{State};
ghost use Rattle.type_walks.specs.Tables.{AreTold};
ghost use Rattle.type_walks.specs.Replaced.{rows_of};
ghost use Rattle.sml_modules.specs.Graphs.{env_at, HasEnv, HasSigParts, signature_of};
ghost use Rattle.static_semantics.specs.Inferring.{Scope};
ghost use Rattle.static_semantics.specs.EnvironmentsPut.{put_env};
ghost use Rattle.module_semantics.specs.Matching.{is_left, realisation_of};
ghost use Rattle.type_phrases.specs.Inferred.{Answers};
ghost use Rattle.structure_matching.specs.Searching.{at_of, IsSearch, Begins};

use crate::parts::EnvPair;
use crate::realising::realise_env;
use crate::refusals::refusal;
use crate::search::Search;
use cm_base::{Fault, List, NoMemory, Place};
use environment_walks::Realisation;
use matched_pairs::Pairs;
use semantic_objects::TyName;
use sml_modules::{EnvGraph, EnvId, SigParts};
use std::alloc::Global;
use type_walks::NameTable;

/// How deep structures may nest in each other. Deeper ones are refused as want of memory is.
pub(crate) const LEVELS: usize = 1024;

/// Names in a table.
fn named(alloc: Global, names: &[TyName]) -> Result<NameTable, NoMemory>
    ensures names { IfOk result (λ table. table.names ≡ names.now) }
    ensures told { IfOk result AreTold }
{
    let mut table = NameTable::new(alloc);
    for name in names {
        table.add(name.copy()?)?;
    }
    Ok(table)
}

/// A walk that begins, for names that a signature binds.
fn begin(alloc: Global, bound: &[TyName]) -> Result<Search, NoMemory>
    ensures { IfOk result (Begins bound.now) }
{
    Ok(Search {
        path: List::new(alloc),
        bound: named(alloc, bound)?,
        rows: List::new(alloc),
        realised: NameTable::new(alloc),
    })
}

/// Whether nothing realises one of some names.
fn is_any_left(search: &Search, bound: &[TyName]) -> Result<bool, NoMemory>
    requires { IsSearch search.now }
    ensures { IfOk result (λ left. left ≡ list_any (is_left (rows_of search.now.rows)) bound.now) }
{
    for name in bound {
        if search.realised.place_of(name)?.is_none() {
            return Ok(true);
        }
    }
    Ok(false)
}

/// The type functions by which an environment's types realise the names that a signature binds, each at the first type
/// of the signature that is specified as the name alone: 36 where a structure or such a type is missing, 35 where its
/// type function has another arity, 33 where the name admits equality and the type function doesn't, and last 37 where a
/// name stands alone at no type. They stand at the place; 36 shows the long name from the signature's root.
/// The Definition of Standard ML (Revised), section 5.6.
pub fn find_realisation(
    g: &EnvGraph,
    at: &Place,
    env: EnvId,
    sig: &SigParts,
) -> Result<Realisation, Fault>
    requires env { HasEnv g.now env }
    requires sig { HasSigParts g.now sig.now }
    ensures { (inner : Scope) (s : State) → inner.home ≡ at.now.file
        → Answers (realisation_of inner (at_of at.now) s (put_env s.stands (env_at g.now env)) (signature_of g.now sig.now))
        (λ by. rows_of by.list) result }
{
    let alloc = g.alloc();
    let mut search = begin(alloc, sig.bound.as_slice())?;
    let mut done = Pairs::new(alloc);
    let pair = EnvPair {
        specified: sig.env,
        found: env,
    };
    realise_env(g, at, &mut search, &mut done, pair, LEVELS)?;
    if is_any_left(&search, sig.bound.as_slice())? {
        return Err(refusal(alloc, 37, at));
    }
    Ok(Realisation { list: search.rows })
}
