//! What is asked of a type name that is replaced.

ghost use Rattle.std.specs.Prelude.{◌≡◌, [], ◌∷◌, eqb, not, IfOk};
ghost use Rattle.semantic_objects.specs.declared.entry.TypeFn.{TypeFn as TypeFunction};
ghost use Rattle.std.specs.List.{join_with_byte};
ghost use Rattle.std.specs.Option.{option_copied};
ghost use Rattle.semantic_objects.specs.Environments.{Signature};
ghost use Rattle.realisation.specs.Names.{is_listed};
ghost use Rattle.static_semantics.specs.Inferring.{Scope as Inner, refuses_where};
ghost use Rattle.module_semantics.specs.SignatureInference.{lacks_equality, replaced, where_type, with_function};
ghost use Rattle.type_phrases.specs.Inferred.{Answers, Refuses};

use crate::replacing::is_name;
use cm_base::{Diag, Fault, List, NoMemory, Place};
use function_forms::{admits, alone};
use semantic_objects::{TyName, TypeFn};
use sml_modules::EnvGraph;
use sml_trees::{At, LongName};
use std::alloc::Global;
use type_phrases::{refusal, unknown};

/// 35 where a type function takes other arguments than the one that it replaces.
fn check_arity(alloc: Global, g: &EnvGraph, at: At, old: &TypeFn, by: &TypeFn) -> Result<(), Fault>
    ensures { (inner : Inner) → inner.home ≡ g.now.home
        → Answers (refuses_where (not (eqb by.now.arity old.now.arity)) 35 inner at) (λ u. tt) result }
{
    if by.arity == old.arity {
        Ok(())
    } else {
        Err(refusal(g, 35, at, List::new(alloc)))
    }
}

/// Whether a type name admits equality, and the type function that replaces it doesn't.
fn lacks_equality(alloc: Global, name: Option<&TyName>, by: &TypeFn) -> Result<bool, NoMemory>
    ensures { IfOk result (λ lacks. lacks ≡ lacks_equality (option_copied name.entry) by.now) }
{
    match name {
        Some(name) => {
            let admits = admits(alloc, by)?;
            Ok(name.eq && !admits)
        }
        None => Ok(false),
    }
}

/// 33 where it does so.
fn check_equality(
    alloc: Global,
    g: &EnvGraph,
    at: At,
    name: Option<&TyName>,
    by: &TypeFn,
) -> Result<(), Fault>
    ensures { (inner : Inner) → inner.home ≡ g.now.home
        → Answers (refuses_where (lacks_equality (option_copied name.entry) by.now) 33 inner at) (λ u. tt) result }
{
    if lacks_equality(alloc, name, by)? {
        Err(refusal(g, 33, at, List::new(alloc)))
    } else {
        Ok(())
    }
}

/// 37 with a long name: the diagnostic of an unknown name with another number, at another place.
fn misfit(alloc: Global, g: &EnvGraph, at: At, long: &LongName) -> Fault
    ensures { Refuses g.now 37 at (join_with_byte 46 long.now.parts ∷ []) result }
{
    match unknown(alloc, g, long) {
        Fault::Diag(diag) => {
            let Diag {
                at: place,
                names,
                ..
            } = diag;
            let Place { file, .. } = place;
            Fault::Diag(Diag {
                number: 37,
                at: Place {
                    file,
                    line: at.line,
                    col: at.col,
                },
                names,
            })
        }
        Fault::NoMemory => Fault::NoMemory,
    }
}

/// Whether a type name is one of some.
fn is_listed(names: &[TyName], name: &TyName) -> bool
    ensures { result ≡ is_listed name.now names.now }
{
    for other in names {
        if is_name(name, other) {
            return true;
        }
    }
    false
}

/// The flexible name that is replaced: 37 with the long name where there is none.
fn flexible(
    alloc: Global,
    g: &EnvGraph,
    at: At,
    long: &LongName,
    name: Option<&TyName>,
    bound: &List<TyName>,
) -> Result<TyName, Fault>
    ensures { (inner : Inner) (by : TypeFunction) (sig : Signature) → inner.home ≡ g.now.home → sig.bound ≡ bound.now
        → Answers (replaced inner at long.now by sig (option_copied name.entry)) (λ name. with_function name by sig) result }
{
    match name {
        Some(name) => {
            if is_listed(bound.as_slice(), name) {
                Ok(name.copy()?)
            } else {
                Err(misfit(alloc, g, at, long))
            }
        }
        None => Err(misfit(alloc, g, at, long)),
    }
}

/// The flexible name of a signature for which a type function is put, where the name stands for a type function in the
/// signature's environment: at a place 35 where the two take other numbers of arguments, 33 where the old one is a name
/// alone that admits equality and the new one doesn't, 37 with the long name where the old one is no flexible name alone.
pub(crate) fn replaced_name(
    alloc: Global,
    g: &EnvGraph,
    at: At,
    long: &LongName,
    old: &TypeFn,
    by: &TypeFn,
    bound: &List<TyName>,
) -> Result<TyName, Fault>
    ensures { (inner : Inner) (sig : Signature) → inner.home ≡ g.now.home → sig.bound ≡ bound.now
        → Answers (where_type inner at long.now old.now by.now sig) (λ name. with_function name by.now sig) result }
{
    check_arity(alloc, g, at, old, by)?;
    let name = alone(old)?;
    check_equality(alloc, g, at, name, by)?;
    flexible(alloc, g, at, long, name, bound)
}
