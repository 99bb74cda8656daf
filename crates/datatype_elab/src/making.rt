//! Type structures of datatypes.

ghost use Rattle.std.specs.Prelude.{◌≡◌, ◌+◌, length, IfOk};
ghost use Rattle.static_semantics.specs.BasicTypes.{is_equality_variable as ranges_over_equality_types};
ghost use Rattle.datatype_elab.specs.Making.{AreBound, marks_of, made_type};

use crate::dats::DatRead;
use crate::entries::con_entries;
use crate::names::own_name;
use crate::needs::NewNames;
use crate::settle::admits;
use crate::trees::own_tree;
use cm_base::{List, NoMemory, Text};
use name_trails::NameTrail;
use semantic_objects::{TypeFn, TypeStr};
use sml_modules::EnvGraph;
use std::alloc::Global;

/// Whether a type variable ranges over equality types: whether it begins with two apostrophes.
fn is_equality_variable(text: &Text) -> bool
    ensures { result ≡ ranges_over_equality_types text.now }
{
    match text.as_bytes() {
        [first, second, ..] => *first == b'\'' && *second == b'\'',
        _ => false,
    }
}

/// For each type variable of a list whether it ranges over equality types.
fn marks_of(alloc: Global, list: &NameTrail<usize>) -> Result<List<bool>, NoMemory>
    ensures { IfOk result (λ marks. marks ≡ marks_of list.now) }
{
    let mut marks = List::new(alloc);
    for row in list.rows() {
        marks.add(is_equality_variable(&row.0))?;
    }
    Ok(marks)
}

/// The number of a new name.
fn number_at(new: &NewNames, place: usize) -> Result<u64, NoMemory>
    ensures { IfOk result (λ number. number ≡ new.now.first + place) }
{
    match new.first.checked_add(place as u64) {
        Some(number) => Ok(number),
        None => Err(NoMemory),
    }
}

/// The type structure of the datatype at a place of its declaration.
pub(crate) fn make_type(
    alloc: Global,
    g: &EnvGraph,
    new: &NewNames,
    choice: &List<bool>,
    place: usize,
    dat: &DatRead,
) -> Result<TypeStr, NoMemory>
    requires home { new.now.home ≡ g.now.home }
    requires counted { new.now.count ≡ length choice.now }
    requires bound { AreBound (length dat.now.list) dat.now.cons }
    ensures { IfOk result (λ str. str ≡ made_type new.now.home new.now.first choice.now place dat.now) }
{
    let number = number_at(new, place)?;
    let name = own_name(g, number, dat.list.len(), admits(choice, place))?;
    let body = own_tree(alloc, &name)?;
    let marks = marks_of(alloc, &dat.list)?;
    let cons = con_entries(alloc, new, choice, &marks, &body, dat.cons.as_slice())?;
    let function = TypeFn {
        arity: name.arity,
        body,
    };
    Ok(TypeStr { function, cons })
}
