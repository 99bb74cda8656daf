//! Types of constants, and that of exceptions.

ghost use Rattle.std.specs.Prelude.{◌≡◌, IfOk};
ghost use Rattle.type_nodes.specs.Tables.{Has, state, type_of};
ghost use Rattle.static_semantics.specs.BasicTypes.{basis_ty, int_ty, string_ty, char_ty, exn_ty};
ghost use Rattle.type_phrases.specs.Inferred.{KeepsTypes};

use cm_base::{List, NoMemory};
use semantic_objects::{Owner, TyId, TyName};
use sml_types::TypeTable;
use std::alloc::Global;

/// A type name of the initial basis without arguments.
#[tactic(auto, using(type_phrases::proofs::Keeping::keeps_all, type_phrases::proofs::Keeping::keeps_extended))]
fn basis_type(alloc: Global, t: &mut TypeTable, number: u64, eq: bool) -> Result<TyId, NoMemory>
    ensures made { IfOk result (λ id. type_of t.new id ≡ basis_ty number eq) }
    ensures state { IfOk result (λ id. state t.new ≡ state t.old) }
    ensures has { IfOk result (Has t.new) }
    ensures ids { KeepsTypes t.old t.new }
{
    let name = TyName {
        owner: Owner::Basis,
        number,
        arity: 0,
        eq,
    };
    t.con(&name, &List::new(alloc))
}

/// `int`
pub fn int_type(alloc: Global, t: &mut TypeTable) -> Result<TyId, NoMemory>
    ensures made { IfOk result (λ id. type_of t.new id ≡ int_ty) }
    ensures state { IfOk result (λ id. state t.new ≡ state t.old) }
    ensures has { IfOk result (Has t.new) }
    ensures ids { KeepsTypes t.old t.new }
{
    basis_type(alloc, t, 0, true)
}

/// `string`
pub fn string_type(alloc: Global, t: &mut TypeTable) -> Result<TyId, NoMemory>
    ensures made { IfOk result (λ id. type_of t.new id ≡ string_ty) }
    ensures state { IfOk result (λ id. state t.new ≡ state t.old) }
    ensures has { IfOk result (Has t.new) }
    ensures ids { KeepsTypes t.old t.new }
{
    basis_type(alloc, t, 2, true)
}

/// `char`
pub fn char_type(alloc: Global, t: &mut TypeTable) -> Result<TyId, NoMemory>
    ensures made { IfOk result (λ id. type_of t.new id ≡ char_ty) }
    ensures state { IfOk result (λ id. state t.new ≡ state t.old) }
    ensures has { IfOk result (Has t.new) }
    ensures ids { KeepsTypes t.old t.new }
{
    basis_type(alloc, t, 3, true)
}

/// `exn`
pub fn exn_type(alloc: Global, t: &mut TypeTable) -> Result<TyId, NoMemory>
    ensures made { IfOk result (λ id. type_of t.new id ≡ exn_ty) }
    ensures state { IfOk result (λ id. state t.new ≡ state t.old) }
    ensures has { IfOk result (Has t.new) }
    ensures ids { KeepsTypes t.old t.new }
{
    basis_type(alloc, t, 7, false)
}
