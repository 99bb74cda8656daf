//! Cases `linked`: the bytes of the program that units make. A section `unit NAME` has the code of a unit, and the
//! sections `import SPACE NAME PROVIDER` behind it are its imports.

ghost use Rattle.std.specs.Prelude.{◌≡◌, ◌<◌, ◌^◌, All, length, true};
ghost use Rattle.linker.specs.Linked.{IsShortBuilt};

use crate::spaces::module_of;
use case_files::{Case, CaseFault, Report, Section, Wrong};
use cm_base::{Built, BuiltUnit, How, Import, List, NoMemory, Pid, Text};
use linker::{laws, link, write_linked};
use std::alloc::Global;

/// Whether each import has a short name.
fn are_short(imports: &[Import]) -> bool
    ensures { result ≡ true → All (λ import. length import.name.name < 2 ^ 32) imports.now }
{
    imports
        .iter()
        .all(|import| import.name.name.as_bytes().len() < 1 << 32)
}

/// Whether the texts and the list of a unit are short.
fn is_short(unit: &BuiltUnit) -> bool
    ensures { result ≡ true → IsShortBuilt unit.now }
{
    unit.unit.as_bytes().len() < 1 << 32
        && unit.imports.len() < 1 << 32
        && unit.code.as_bytes().len() < 1 << 32
        && are_short(unit.imports.as_slice())
}

/// Whether each unit is short.
fn all_short(units: &[BuiltUnit]) -> bool
    ensures { result ≡ true → All IsShortBuilt units.now }
{
    units.iter().all(|unit| is_short(unit))
}

/// The file of the linked program. None for units that are too long for one.
pub fn file_of(alloc: Global, units: Vec<BuiltUnit>) -> Result<Option<Text>, NoMemory> {
    if units.len() >= 1 << 32 || !all_short(units.as_slice()) {
        return Ok(None);
    }
    let built = Built {
        units: List::from_vec(units),
    };
    laws::links_can_be_spelled();
    Ok(Some(write_linked(alloc, &link(alloc, &built)?)?))
}

/// A unit with this code.
pub fn unit_of(alloc: Global, name: &Text, code: Text) -> Result<BuiltUnit, NoMemory> {
    Ok(BuiltUnit {
        unit: name.copy()?,
        how: How::Compiled,
        imports: List::new(alloc),
        hash: Pid { bytes: [7; 32] },
        interface: Text::from_bytes(alloc, b"not this")?,
        code,
    })
}

/// The import that words write.
fn import_of(words: &[Text]) -> Result<Option<Import>, NoMemory> {
    let [space, name, provider] = words else {
        return Ok(None);
    };
    match module_of(space, name)? {
        Some(name) => Ok(Some(Import {
            name,
            provider: provider.copy()?,
            hash: Pid { bytes: [7; 32] },
        })),
        None => Ok(None),
    }
}

/// Takes a section: a unit, an import of the last unit, or what is wanted.
fn take_section(
    alloc: Global,
    units: &mut Vec<BuiltUnit>,
    section: &Section,
) -> Result<(), CaseFault> {
    let words = section.words(alloc)?;
    match (section.name.as_bytes(), words.as_slice()) {
        (b"unit", [name]) => Ok(units.push(unit_of(alloc, name, section.bytes(alloc)?)?)?),
        (b"import", words) => add_import(units, section, import_of(words)?),
        (b"gives", []) => Ok(()),
        _ => Err(section.means_nothing()),
    }
}

/// Adds an import to the last unit.
fn add_import(
    units: &mut Vec<BuiltUnit>,
    section: &Section,
    import: Option<Import>,
) -> Result<(), CaseFault> {
    match (units.last_mut(), import) {
        (Some(unit), Some(import)) => Ok(unit.imports.add(import)?),
        _ => Err(section.means_nothing()),
    }
}

/// The units of a case.
fn units_of(alloc: Global, case: &Case) -> Result<Vec<BuiltUnit>, CaseFault> {
    let mut units = Vec::new(alloc);
    for section in case.sections.as_slice() {
        take_section(alloc, &mut units, section)?;
    }
    Ok(units)
}

/// Links the units of a case, and compares the file with the one that is wanted.
pub fn try_link(alloc: Global, case: &Case, report: &mut Report) -> Result<(), CaseFault> {
    case.has_only(&[b"unit", b"import", b"gives"])?;
    let wanted = case.the(b"gives")?;
    match file_of(alloc, units_of(alloc, case)?)? {
        Some(given) => Ok(report.compare(
            case,
            wanted.line,
            b"another file",
            wanted.bytes(alloc)?.as_bytes(),
            given.as_bytes(),
        )?),
        None => Err(CaseFault::Wrong(case.line, Wrong::Words)),
    }
}
