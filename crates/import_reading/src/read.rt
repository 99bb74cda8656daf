//! What was read of imports so far.

ghost use Rattle.std.specs.Prelude.{◌≡◌, List, IfOk, OnOk};
ghost use Rattle.sml_modules.specs.Items.{Item};
ghost use Rattle.imported_interfaces.specs.Imported.{no_imports};
ghost use Rattle.import_reading.specs.Placed.{with_place};
ghost use Rattle.import_reading.specs.Reading.{AreRead};

use cm_base::{ModName, Namespace, NoMemory};
use env_parts::Rows;
use imported_interfaces::{KnownNames, known_at_first};
use interface_restoring::UnitTables;
use std::alloc::Global;

/// What was read of imports: what has the imported names, as places of a graph, and the type names that are known.
#[derive(Drop)]
pub(crate) struct ReadImports {
    pub(crate) tables: UnitTables,
    pub(crate) known: KnownNames,
}

impl ReadImports {
    /// Nothing is imported yet.
    pub(crate) fn new(alloc: Global) -> Result<ReadImports, NoMemory>
        ensures { IfOk result (λ read. (items : List Item) → AreRead items no_imports read) }
    {
        let known = known_at_first(alloc)?;
        Ok(ReadImports {
            tables: UnitTables {
                structures: Rows::new(alloc),
                signatures: Rows::new(alloc),
                functors: Rows::new(alloc),
                funsigs: Rows::new(alloc),
            },
            known,
        })
    }
}

/// Sets the place under a name of its name space: of two imports of one name the later counts.
pub(crate) fn set_place(
    tables: &mut UnitTables,
    wanted: &ModName,
    place: usize,
) -> Result<(), NoMemory>
    ensures { OnOk result (tables.new ≡ with_place wanted.now place tables.old) }
{
    let name = wanted.name.copy()?;
    match wanted.space {
        Namespace::Structure => tables.structures.set(name, place),
        Namespace::Signature => tables.signatures.set(name, place),
        Namespace::Functor => tables.functors.set(name, place),
        Namespace::Funsig => tables.funsigs.set(name, place),
    }
}
