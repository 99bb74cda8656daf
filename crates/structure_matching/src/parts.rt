//! The components of a signature, each with what stands under its name in the environment that is matched.

ghost use Rattle.std.specs.Prelude.{◌≡◌, IfOk, Some};
ghost use Rattle.sml_modules.specs.Items.{Item, at};
ghost use Rattle.sml_modules.specs.Graphs.{HasEnv};
ghost use Rattle.structure_matching.specs.Found.{specified_rows, AreFound, IsComponentAt};

use cm_base::{List, NoMemory, Text};
use env_parts::Rows;
use semantic_objects::{TypeStr, ValueEntry};
use sml_modules::{EnvGraph, EnvId, Node};
use std::alloc::Global;

/// A row of one of a signature's tables, and the place of what stands under its name, if anything does.
#[derive(Drop)]
pub(crate) struct Component {
    pub(crate) name: Text,
    pub(crate) specified: usize,
    pub(crate) found: Option<usize>,
}

/// One row of them. A place past the last one is refused as want of memory is.
fn component_at(
    found: &Rows,
    names: &List<Text>,
    places: &List<usize>,
    at: usize,
) -> Result<Component, NoMemory>
    ensures { IfOk result (IsComponentAt found.now names.now places.now at) }
{
    match names.get(at) {
        Some(name) => match places.get(at) {
            Some(place) => {
                let found = found.get(name);
                Ok(Component {
                    name: name.copy()?,
                    specified: *place,
                    found,
                })
            }
            None => Err(NoMemory),
        },
        None => Err(NoMemory),
    }
}

/// The rows of a signature's table with what a table has under their names.
pub(crate) fn components(
    alloc: Global,
    specified: &Rows,
    found: &Rows,
) -> Result<List<Component>, NoMemory>
    ensures rows { IfOk result (λ made. specified_rows made ≡ specified.now) }
    ensures found { IfOk result (AreFound found.now) }
{
    let names = specified.names(alloc)?;
    let places = specified.places(alloc)?;
    let mut made = List::new(alloc);
    for at in 0..names.len() {
        let row = component_at(found, &names, &places, at)?;
        made.add(row)?;
    }
    Ok(made)
}

/// The type structure at a place. Anything else there is refused as want of memory is.
pub(crate) fn type_at(g: &EnvGraph, place: usize) -> Result<&TypeStr, NoMemory>
    ensures { IfOk result (λ entry. at g.now.items place ≡ Item.TypeItem entry.now) }
{
    match g.node_at(place) {
        Some(node) => match node {
            Node::TypeStr(kept) => Ok(&kept.entry),
            _ => Err(NoMemory),
        },
        None => Err(NoMemory),
    }
}

/// The value at a place. Anything else there is refused as want of memory is.
pub(crate) fn value_at(g: &EnvGraph, place: usize) -> Result<&ValueEntry, NoMemory>
    ensures { IfOk result (λ entry. at g.now.items place ≡ Item.ValueItem entry.now) }
{
    match g.node_at(place) {
        Some(node) => match node {
            Node::Value(kept) => Ok(&kept.entry),
            _ => Err(NoMemory),
        },
        None => Err(NoMemory),
    }
}

/// An environment that is specified, and the environment that is matched with it.
#[derive(Clone, Copy)]
pub(crate) struct EnvPair {
    pub(crate) specified: EnvId,
    pub(crate) found: EnvId,
}

/// The environments at two places. Anything else there is refused as want of memory is.
pub(crate) fn env_pair(g: &EnvGraph, specified: usize, found: usize) -> Result<EnvPair, NoMemory>
    ensures places { IfOk result (λ pair. pair
        ≡ record { specified = record { place = specified }; found = record { place = found } }) }
    ensures specified { IfOk result (λ pair. HasEnv g.now pair.specified) }
    ensures found { IfOk result (λ pair. HasEnv g.now pair.found) }
{
    let specified = EnvId { place: specified };
    let found = EnvId { place: found };
    if g.has_env(specified) && g.has_env(found) {
        Ok(EnvPair { specified, found })
    } else {
        Err(NoMemory)
    }
}
