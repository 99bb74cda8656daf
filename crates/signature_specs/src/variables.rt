//! The type variables that a type is closed over.

ghost use Rattle.std.specs.Prelude.{◌≡◌, IfOk};
ghost use Rattle.type_nodes.specs.Tables.{Table};
ghost use Rattle.bare_phrases.specs.PhraseOf.{ty_phrase};
ghost use Rattle.static_semantics.specs.BasicTypes.{is_equality_variable as ranges_over_equality_types};
ghost use Rattle.core_scopes.specs.Scopes.{written_rows};
ghost use Rattle.type_phrases.specs.Inferred.{KeepsTypes, progress};
ghost use Rattle.module_semantics.specs.SignatureInference.{variables_of};
ghost use Rattle.signature_specs.specs.Variables.{IsListedFrom, AreNumbered, IsListIn, row_ids, texts_of, marks_of};

use cm_base::{List, NoMemory, Text};
use core_scopes::InScope;
use name_trails::NameTrail;
use semantic_objects::TyId;
use sml_modules::EnvGraph;
use sml_trees::{Name, Ty};
use sml_types::TypeTable;
use std::alloc::Global;
use type_bindings::list_variables;
use written_variables::variables_in_type;

/// Texts as names, whose places nothing asks for.
fn as_names(alloc: Global, texts: List<Text>) -> Result<List<Name>, NoMemory>
    ensures { IfOk result (λ names. texts_of names ≡ texts) }
{
    let mut names = List::new(alloc);
    for text in texts.into_vec() {
        names.add(Name {
            text,
            line: 1,
            col: 1,
        })?;
    }
    Ok(names)
}

/// New variables for names that differ, each for itself.
fn new_variables(
    alloc: Global,
    g: &EnvGraph,
    t: &mut TypeTable,
    names: &List<Name>,
) -> Result<NameTrail<usize>, NoMemory>
    ensures listed { IfOk result (IsListedFrom g.now t.old t.new names.now) }
    ensures ids { KeepsTypes t.old t.new }
{
    t.is_kept();
    match list_variables(alloc, g, t, names.as_slice()) {
        Ok(own) => Ok(own),
        Err(_) => Err(NoMemory),
    }
}

/// The type variables of the type of a `val` specification by their first places, each with the number of a new variable
/// that stands for itself alone. After want of memory the table may have variables more.
/// The Definition of Standard ML (Revised), rule 79 and section 4.6.
pub(crate) fn own_variables(
    alloc: Global,
    g: &EnvGraph,
    t: &mut TypeTable,
    ty: &Ty,
) -> Result<NameTrail<usize>, NoMemory>
    ensures own { IfOk result (λ own.
        variables_of (ty_phrase ty.now) (progress t.old g.now) ≡ (own, progress t.new g.now)) }
    ensures list { IfOk result (IsListIn t.new) }
    ensures ids { KeepsTypes t.old t.new }
{
    let texts = variables_in_type(alloc, ty)?;
    let names = as_names(alloc, texts)?;
    new_variables(alloc, g, t, &names)
}

/// The number of the first variable of a list.
pub(crate) fn first_of(list: &NameTrail<usize>) -> usize
    ensures { (t : Table) → IsListIn t list.now → AreNumbered t result list.now }
{
    match list.rows().split_first() {
        Some((first, _)) => first.1,
        None => 0,
    }
}

/// The variables of a list as they are written, each for itself.
pub(crate) fn written_list(
    alloc: Global,
    list: &NameTrail<usize>,
) -> Result<List<InScope>, NoMemory>
    ensures { IfOk result (λ written. written_rows written ≡ row_ids list.now) }
{
    let mut written = List::new(alloc);
    for row in list.rows() {
        written.add(InScope {
            name: row.0.copy()?,
            is: TyId::Variable(row.1),
        })?;
    }
    Ok(written)
}

/// Whether a type variable ranges over equality types: whether it begins with two apostrophes.
fn is_equality_variable(text: &Text) -> bool
    ensures { result ≡ ranges_over_equality_types text.now }
{
    match text.as_bytes() {
        [first, second, ..] => *first == b'\'' && *second == b'\'',
        _ => false,
    }
}

/// For each variable of a list whether it ranges over equality types.
pub(crate) fn marks_of(alloc: Global, list: &NameTrail<usize>) -> Result<List<bool>, NoMemory>
    ensures { IfOk result (λ marks. marks ≡ marks_of list.now) }
{
    let mut marks = List::new(alloc);
    for row in list.rows() {
        marks.add(is_equality_variable(&row.0))?;
    }
    Ok(marks)
}
