//! Finished signatures.

ghost use Rattle.std.specs.Prelude.{◌≡◌, IfOk};
ghost use Rattle.semantic_objects.specs.Environments.{Signature};
ghost use Rattle.sml_modules.specs.Graphs.{signature_at, signature_of, HasSigParts, HasSignature};
ghost use Rattle.type_walks.specs.Replaced.{rows_of};
ghost use Rattle.module_semantics.specs.SignatureNames.{bound_names, closed, rows_between};
ghost use Rattle.where_types.specs.Where.{GrowsByNodes};

use crate::including::MOST_NAMES;
use cm_base::{List, NoMemory};
use environment_walks::{Realisation, Replace, realise};
use semantic_objects::{Owner, TyName};
use signature_sealing::{NewNames, own_function};
use sml_modules::{EnvGraph, SigId, SigParts};
use std::alloc::Global;

/// Bound names for some names, one for each in their order, of the same arity and equality.
fn bound_names(alloc: Global, olds: &[TyName]) -> Result<NewNames, NoMemory>
    ensures names { IfOk result (λ new. new.names ≡ bound_names 0 olds.now) }
    ensures rows { IfOk result (λ new. rows_of new.by.list ≡ rows_between olds.now (bound_names 0 olds.now)) }
{
    let mut names = List::new(alloc);
    let mut list = List::new(alloc);
    for old in olds {
        let new = TyName {
            owner: Owner::Bound,
            number: names.len() as u64,
            arity: old.arity,
            eq: old.eq,
        };
        let by = own_function(alloc, &new)?;
        list.add(Replace {
            name: old.copy()?,
            by,
        })?;
        names.add(new)?;
    }
    Ok(NewNames {
        names,
        by: Realisation { list },
    })
}

/// A finished signature, of an open one: it binds its flexible names, which are numbered from 0 in the order of its list.
/// More than 1,048,576 are refused as want of memory is. All ids keep what they stand for.
/// The Definition of Standard ML (Revised), rule 65.
pub fn close_signature(alloc: Global, g: &mut EnvGraph, sig: &SigParts) -> Result<SigId, NoMemory>
    requires { HasSigParts g.old sig.now }
    ensures there { IfOk result (HasSignature g.new) }
    ensures is { IfOk result (λ id. signature_at g.new id ≡ closed (signature_of g.old sig.now)) }
    ensures grows { GrowsByNodes g.old g.new }
{
    if sig.bound.len() > MOST_NAMES {
        return Err(NoMemory);
    }
    let new = bound_names(alloc, sig.bound.as_slice())?;
    let env = realise(g, sig.env, &new.by)?;
    g.make_sig(&SigParts {
        bound: new.names,
        env,
    })
}
