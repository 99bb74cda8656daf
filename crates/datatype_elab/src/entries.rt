//! The constructors of a type structure, in byte order of their names.

ghost use Rattle.std.specs.Prelude.{◌≡◌, map, length, IfOk};
ghost use Rattle.semantic_objects.specs.Tables.{names_of};
ghost use Rattle.semantic_objects.specs.Trees.{BindsBelow};
ghost use Rattle.datatype_elab.specs.Making.{AreBound, places_from, scheme_in, entries_of};

use crate::cons::ConRead;
use crate::needs::NewNames;
use crate::settle::con_scheme;
use cm_base::{List, NoMemory, Text};
use env_parts::Rows;
use semantic_objects::{ConEntry, TypeTree};
use std::alloc::Global;

/// The places of constructors, by name.
fn con_places(alloc: Global, cons: &[ConRead]) -> Result<Rows, NoMemory>
    ensures { IfOk result (λ rows. rows ≡ places_from 0 cons.now) }
{
    let mut rows = Rows::new(alloc);
    let mut at = cons.len();
    while at > 0 {
        at -= 1;
        rows.set(cons[at].name.copy()?, at)?;
    }
    Ok(rows)
}

/// The constructor at a place under its name.
fn con_entry(
    alloc: Global,
    new: &NewNames,
    choice: &List<bool>,
    marks: &List<bool>,
    of: &TypeTree,
    cons: &[ConRead],
    name: &Text,
    place: usize,
) -> Result<ConEntry, NoMemory>
    requires counted { new.now.count ≡ length choice.now }
    requires of { BindsBelow (length marks.now) of.now }
    requires bound { AreBound (length marks.now) cons.now }
    ensures name { IfOk result (λ entry. entry.name ≡ name.now) }
    ensures scheme { IfOk result (λ entry.
        entry.scheme ≡ scheme_in new.now.home new.now.first choice.now marks.now of.now cons.now place) }
{
    match cons.get(place) {
        Some(con) => {
            let scheme = con_scheme(alloc, new, choice, marks, of, con)?;
            Ok(ConEntry {
                name: name.copy()?,
                scheme,
            })
        }
        None => Err(NoMemory),
    }
}

/// Constructors with their schemes, over all variables of the list of their datatype.
pub(crate) fn con_entries(
    alloc: Global,
    new: &NewNames,
    choice: &List<bool>,
    marks: &List<bool>,
    of: &TypeTree,
    cons: &[ConRead],
) -> Result<List<ConEntry>, NoMemory>
    requires counted { new.now.count ≡ length choice.now }
    requires of { BindsBelow (length marks.now) of.now }
    requires bound { AreBound (length marks.now) cons.now }
    ensures { IfOk result (λ entries.
        entries ≡ entries_of new.now.home new.now.first choice.now marks.now of.now cons.now) }
{
    let rows = con_places(alloc, cons)?;
    let names = rows.names(alloc)?;
    let places = rows.places(alloc)?;
    let mut entries = List::new(alloc);
    for at in 0..names.len() {
        match (names.get(at), places.get(at)) {
            (Some(name), Some(place)) => {
                let entry = con_entry(alloc, new, choice, marks, of, cons, name, *place)?;
                entries.add(entry)?;
            }
            _ => return Err(NoMemory),
        }
    }
    Ok(entries)
}
