//! Type structures.

ghost use Rattle.std.specs.Prelude.{◌≡◌, map, IfOk};
ghost use Rattle.row_types.specs.Told.{name_of};
ghost use Rattle.row_entries.specs.Told.{FindsCons, FindsStructure, TellsStructure};

use crate::rows::EntryRows;
use cm_base::{List, NoMemory, Text};
use interface_conditions::are_names;
use interface_nodes::NamedPlace;
use node_bytes::Row;
use row_forms::{TypeForm, type_form};
use semantic_objects::{ConEntry, Scheme, TypeStr};
use sml_modules::copy_function;
use std::alloc::Global;

/// The same scheme.
fn copy_scheme(alloc: Global, scheme: &Scheme) -> Result<Scheme, NoMemory>
    ensures { IfOk result (λ copy. copy ≡ scheme.now) }
{
    let parts = scheme.parts(alloc)?;
    Scheme::make(parts.marks, parts.body)
}

/// The names of rows.
fn names_of(alloc: Global, table: &[NamedPlace]) -> Result<List<Text>, NoMemory>
    ensures { IfOk result (λ names. names ≡ map name_of table.now) }
{
    let mut names = List::new(alloc);
    for row in table {
        names.add(row.name.copy()?)?;
    }
    Ok(names)
}

/// The constructors of rows, if each has a scheme.
fn cons_of(
    alloc: Global,
    rows: &EntryRows,
    table: &[NamedPlace],
) -> Result<Option<List<ConEntry>>, NoMemory>
    ensures { IfOk result (FindsCons rows.now table.now) }
{
    let mut cons = List::new(alloc);
    for row in table {
        match rows.scheme_at(row.place)? {
            Some(scheme) => {
                let name = row.name.copy()?;
                let scheme = copy_scheme(alloc, scheme)?;
                cons.add(ConEntry { name, scheme })?;
            }
            None => return Ok(None),
        }
    }
    Ok(Some(cons))
}

/// The type structure of a type function and constructors, if they are named as the rules ask.
fn structure_over(
    alloc: Global,
    rows: &EntryRows,
    form: &TypeForm,
) -> Result<Option<TypeStr>, NoMemory>
    ensures { IfOk result (FindsStructure rows.now form.now) }
{
    let Some(function) = rows.function_at(form.function)? else {
        return Ok(None);
    };
    let names = names_of(alloc, form.cons.as_slice())?;
    if !are_names(names.as_slice()) {
        return Ok(None);
    }
    let Some(cons) = cons_of(alloc, rows, form.cons.as_slice())? else {
        return Ok(None);
    };
    let copied = copy_function(alloc, function)?;
    Ok(Some(TypeStr {
        function: copied,
        cons,
    }))
}

/// The type structure that a row is.
pub fn structure_row(
    alloc: Global,
    rows: &EntryRows,
    row: &Row,
) -> Result<Option<TypeStr>, NoMemory>
    ensures { IfOk result (TellsStructure rows.now row.now) }
{
    match row.tag {
        7 => match type_form(alloc, row.items.as_slice())? {
            Some(form) => structure_over(alloc, rows, &form),
            None => Ok(None),
        },
        _ => Ok(None),
    }
}
