//! Signatures with a type function in place of a flexible name.

ghost use Rattle.std.specs.Prelude.{◌≡◌, ◌∷◌, ◌++◌, [], filter, not, IfOk, OnOk, OnErr};
ghost use Rattle.semantic_objects.specs.Symbols.{same_name};
ghost use Rattle.sml_modules.specs.Graphs.{signature_of, HasSigParts};
ghost use Rattle.module_semantics.specs.SignatureInference.{with_function};
ghost use Rattle.where_types.specs.Where.{GivesParts};

use cm_base::{List, NoMemory};
use environment_walks::{Realisation, Replace, realise};
use semantic_objects::{TyName, TypeFn};
use sml_modules::{EnvGraph, SigParts};
use std::alloc::Global;

/// Whether two names are one.
pub(crate) fn is_name(name: &TyName, other: &TyName) -> bool
    ensures { result ≡ same_name name.now other.now }
{
    name.is_same(other)
}

/// Adds a name behind others, if it isn't a certain one.
fn add_other(left: &mut List<TyName>, name: &TyName, other: &TyName) -> Result<(), NoMemory>
    ensures { OnOk result (left.new ≡ left.old ++ filter (λ m. not (same_name name.now m)) (other.now ∷ [])) }
{
    if is_name(name, other) {
        return Ok(());
    }
    left.add(other.copy()?)?;
    Ok(())
}

/// All names but one.
fn without(alloc: Global, names: &[TyName], name: &TyName) -> Result<List<TyName>, NoMemory>
    ensures { IfOk result (λ left. left ≡ filter (λ m. not (same_name name.now m)) names.now) }
{
    let mut left = List::new(alloc);
    for other in names {
        add_other(&mut left, name, other)?;
    }
    Ok(left)
}

/// The realisation of one name.
fn realisation(alloc: Global, name: TyName, by: TypeFn) -> Result<Realisation, NoMemory>
    ensures { IfOk result (λ made. made.list ≡ record { name = name; by = by } ∷ []) }
{
    let mut list = List::new(alloc);
    list.add(Replace { name, by })?;
    Ok(Realisation { list })
}

/// A signature with a type function in place of one of its flexible names, which is flexible no more. Want of memory
/// leaves the graph as it was.
pub(crate) fn put_function(
    g: &mut EnvGraph,
    sig: &SigParts,
    name: TyName,
    by: TypeFn,
) -> Result<SigParts, NoMemory>
    requires { HasSigParts g.old sig.now }
    ensures ok { IfOk result (GivesParts g.old g.new (with_function name by (signature_of g.old sig.now))) }
    ensures err { OnErr result (g.new ≡ g.old) }
{
    let alloc = g.alloc();
    let bound = without(alloc, sig.bound.as_slice(), &name)?;
    let by = realisation(alloc, name, by)?;
    let env = realise(g, sig.env, &by)?;
    Ok(SigParts { bound, env })
}
