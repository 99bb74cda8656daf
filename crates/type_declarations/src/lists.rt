//! The type variables of a list, in scope and by their numbers.

ghost use Rattle.std.specs.Prelude.{◌≡◌, ℕ, length, IfOk};
ghost use Rattle.static_semantics.specs.TypeInference.{numbers};
ghost use Rattle.static_semantics.specs.DatatypeInference.{counted};
ghost use Rattle.core_scopes.specs.Scopes.{written_rows};
ghost use Rattle.type_declarations.specs.Binding.{row_ids};

use cm_base::{List, NoMemory};
use core_scopes::InScope;
use name_trails::NameTrail;
use semantic_objects::TyId;
use std::alloc::Global;

/// The variables of a list as written ones, each for itself.
pub(crate) fn written_list(
    alloc: Global,
    list: &NameTrail<usize>,
) -> Result<List<InScope>, NoMemory>
    ensures { IfOk result (λ written. written_rows written ≡ row_ids list.now) }
{
    let mut written = List::new(alloc);
    for row in list.rows() {
        let name = row.0.copy()?;
        let is = TyId::Variable(row.1);
        written.add(InScope { name, is })?;
    }
    Ok(written)
}

/// The number of the first variable of a list; of no variable any number is.
pub(crate) fn first_number(list: &NameTrail<usize>) -> usize
    ensures { (n : ℕ) → numbers list.now ≡ counted (length list.now) n
        → numbers list.now ≡ counted (length list.now) result }
{
    match list.rows().first() {
        Some(row) => row.1,
        None => 0,
    }
}
