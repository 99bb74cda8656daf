//! The imports of a unit are read.

ghost use Rattle.std.specs.Prelude.{◌≡◌, IfOk};
ghost use Rattle.sml_modules.specs.Adding.{Extends};
ghost use Rattle.imported_interfaces.specs.Imported.{Imports, damaged};
ghost use Rattle.imported_interfaces.specs.Known.{AreKept};
ghost use Rattle.import_reading.specs.Reading.{AreRead, ReadsOne, ReadsAll, ReadsTop};
ghost use Rattle.import_reading.specs.Restored.{AreRestored};

use crate::fitting::usable_place;
use crate::read::{ReadImports, set_place};
use crate::restored::{RestoredInterfaces, have_restored};
use cm_base::{Diag, Fault, Given, List, NoMemory, Text};
use interface_restoring::add_unit;
use sml_modules::{EnvGraph, TopId};
use std::alloc::Global;

/// 50 at the unit as a whole, with the provider's name.
fn damaged(alloc: Global, unit: &Text, given: &Given) -> Result<Diag, NoMemory>
    ensures { IfOk result (λ diag. diag ≡ damaged unit.now given.now) }
{
    let mut diag = Diag::on_file(alloc, 50, unit)?;
    diag.names.add(given.import.provider.copy()?)?;
    Ok(diag)
}

/// Reads one import after others, and whether its interface can be used. What was read is of no use where it can't, and
/// after want of memory.
fn read_one(
    graph: &mut EnvGraph,
    restored: &mut RestoredInterfaces,
    unit: &Text,
    given: &Given,
    read: &mut ReadImports,
) -> Result<bool, NoMemory>
    requires restored { AreRestored graph.old.items restored.old }
    requires read { AreKept read.old.known }
    ensures extends { Extends graph.old graph.new }
    ensures restored { AreRestored graph.new.items restored.new }
    ensures reads { IfOk result (λ usable. (made : Imports) → AreRead graph.old.items made read.old
        → ReadsOne unit.now given.now made graph.new.items read.new usable) }
{
    if !have_restored(graph, restored, given)? {
        return Ok(false);
    }
    let Some(found) = restored.find(&given.import.provider) else {
        return Ok(false);
    };
    let Some(place) = usable_place(graph, &mut read.known, unit, given, found)? else {
        return Ok(false);
    };
    set_place(&mut read.tables, &given.import.name, place)?;
    Ok(true)
}

/// Reads imports one after the other, up to the first whose interface can't be used.
fn read_all(
    graph: &mut EnvGraph,
    restored: &mut RestoredInterfaces,
    unit: &Text,
    imports: &[Given],
) -> Result<ReadImports, Fault>
    requires { AreRestored graph.old.items restored.old }
    ensures extends { Extends graph.old graph.new }
    ensures restored { AreRestored graph.new.items restored.new }
    ensures reads { ReadsAll unit.now imports.now graph.new.items result }
{
    let alloc = graph.alloc();
    let mut read = ReadImports::new(alloc)?;
    for given in imports {
        if !read_one(graph, restored, unit, given, &mut read)? {
            return Err(Fault::Diag(damaged(alloc, unit, given)?));
        }
    }
    Ok(read)
}

/// What a unit sees of its imports, as a top: the imported names alone, of two imports of one name the later. It is
/// refused with 50, at the unit as a whole and with the provider's name, exactly where an interface can't be used, for
/// the first such import of the list. An interface that stands in the graph as the one of its provider that was read last
/// isn't read again; any other is, and stands in its place then, also after a refusal. It takes as many steps as the
/// interfaces have bytes that are read, and about as many look-ups by name as there are type names in all.
pub fn read_imports(
    graph: &mut EnvGraph,
    restored: &mut RestoredInterfaces,
    unit: &Text,
    imports: &List<Given>,
) -> Result<TopId, Fault>
    requires { AreRestored graph.old.items restored.old }
    ensures extends { Extends graph.old graph.new }
    ensures restored { AreRestored graph.new.items restored.new }
    ensures reads { ReadsTop unit.now imports.now graph.new result }
{
    let read = read_all(graph, restored, unit, imports.as_slice())?;
    let place = add_unit(graph, read.tables)?;
    Ok(TopId { place })
}
