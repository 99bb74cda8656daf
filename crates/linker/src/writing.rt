//! The bytes of a linked program.

ghost use Rattle.std.specs.Prelude.{◌≡◌, ◌<◌, ◌^◌, ◌∷◌, [], ◌++◌, All, IfOk, OnOk, length};
ghost use Rattle.cm_bytes.specs.Fields.{space_byte, list_of};
ghost use Rattle.linker.specs.Spelling.{linked_import_of, linked_unit_of, linked_file, IsShortImport, IsShortUnit, IsShort};

use crate::program::{Linked, LinkedImport, LinkedUnit};
use cm_base::{List, Namespace, NoMemory, Text};
use cm_bytes::Writer;
use std::alloc::Global;

/// The byte of a name space.
fn space_byte(space: Namespace) -> u8
    ensures { result ≡ space_byte space }
{
    match space {
        Namespace::Structure => 0,
        Namespace::Signature => 1,
        Namespace::Functor => 2,
        Namespace::Funsig => 3,
    }
}

/// Appends an import.
#[tactic(auto, unfolding(crate::specs::Spelling::linked_import_of))]
fn write_import(out: &mut Writer, import: &LinkedImport) -> Result<(), NoMemory>
    requires { IsShortImport import.now }
    ensures { OnOk result (out.new ≡ out.old ++ linked_import_of import.now) }
{
    out.u8(space_byte(import.name.space))?;
    out.text(&import.name.name)?;
    out.u32(import.from)
}

/// Appends the count of the imports, and the imports.
#[tactic(auto, unfolding(cm_bytes::specs::Fields::list_of))]
fn write_imports(out: &mut Writer, imports: &[LinkedImport]) -> Result<(), NoMemory>
    requires count { length imports.now < 2 ^ 32 }
    requires each { All IsShortImport imports.now }
    ensures { OnOk result (out.new ≡ out.old ++ list_of linked_import_of imports.now) }
{
    out.u32(imports.len() as u32)?;
    for import in imports {
        write_import(out, import)?;
    }
    Ok(())
}

/// Appends a unit.
#[tactic(auto, unfolding(crate::specs::Spelling::linked_unit_of))]
fn write_unit(out: &mut Writer, unit: &LinkedUnit) -> Result<(), NoMemory>
    requires { IsShortUnit unit.now }
    ensures { OnOk result (out.new ≡ out.old ++ linked_unit_of unit.now) }
{
    out.text(&unit.unit)?;
    write_imports(out, unit.imports.as_slice())?;
    out.text(&unit.code)
}

/// Appends the count of the units, and the units.
#[tactic(auto, unfolding(cm_bytes::specs::Fields::list_of))]
fn write_units(out: &mut Writer, units: &[LinkedUnit]) -> Result<(), NoMemory>
    requires count { length units.now < 2 ^ 32 }
    requires each { All IsShortUnit units.now }
    ensures { OnOk result (out.new ≡ out.old ++ list_of linked_unit_of units.now) }
{
    out.u32(units.len() as u32)?;
    for unit in units {
        write_unit(out, unit)?;
    }
    Ok(())
}

/// The bytes of a linked program.
#[tactic(auto, unfolding(crate::specs::Spelling::linked_file))]
pub fn write_linked(alloc: Global, l: &Linked) -> Result<Text, NoMemory>
    requires { IsShort l.now }
    ensures { IfOk result (λ text. text ≡ linked_file l.now) }
{
    let mut out = Writer::new(alloc);
    out.raw(b"CML1")?;
    write_units(&mut out, l.units.as_slice())?;
    Ok(out.finish())
}
