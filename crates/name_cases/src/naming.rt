//! Cases `names`: a project, section by section, and what its groups show and its units import.

ghost use Rattle.std.specs.Prelude.{◌≡◌, true, length, None, IfOk};
ghost use Rattle.visibility.specs.Exports.{clash_in};
ghost use Rattle.visibility.specs.Projects.{group_of};

use crate::building::Built;
use crate::reading::defs_of;
use crate::showing::{answered, push_exports, push_imports};
use case_files::{Case, CaseFault, Report, Section, Wrong};
use case_texts::refusal;
use cm_base::{Fault, List, NoMemory};
use cm_description::{Export, Wanted};
use std::alloc::Global;
use visibility::{all_names, exports, imports};

/// What each group shows up to one, and with it or without.
fn below(alloc: Global, built: &Built, upto: u32, with: bool) -> Result<List<List<Export>>, Fault>
    requires counted { length built.now.skeletons ≡ length built.now.project.units }
{
    let defs = List::new(alloc);
    let mut below = List::new(alloc);
    for group in built.project.finished.as_slice() {
        if *group == upto && !with {
            break;
        }
        below.add(exports(
            alloc,
            &built.project,
            &built.skeletons,
            &defs,
            *group,
            &below,
        )?)?;
        if *group == upto {
            break;
        }
    }
    Ok(below)
}

/// What a group shows, as a line.
fn exports_line(alloc: Global, built: &Built, file: &[u8], group: u32) -> Result<Vec<u8>, NoMemory>
    requires counted { length built.now.skeletons ≡ length built.now.project.units }
{
    match below(alloc, built, group, true) {
        Ok(below) => {
            let mut out = Vec::new(alloc);
            if let Some(shown) = below.as_slice().last() {
                push_exports(alloc, &mut out, &built.project, file, shown)?;
            }
            Ok(out)
        }
        Err(fault) => refusal(alloc, &fault),
    }
}

/// Whether a unit is a source of a group that was read from its description, of which no two sources define one name.
/// The refusals of that group come before those of the unit.
fn is_clear(
    alloc: Global,
    built: &Built,
    below: &List<List<Export>>,
    unit: u32,
) -> Result<bool, Fault>
    requires counted { length built.now.skeletons ≡ length built.now.project.units }
    ensures { IfOk result (λ clear. clear ≡ true →
        clash_in built.now.project built.now.skeletons (group_of built.now.project unit) ≡ None) }
{
    let Some(unit) = built.project.units.get(unit as usize) else {
        return Ok(false);
    };
    match built.project.groups.get(unit.group as usize) {
        Some(group) if group.thawed.is_none() => {}
        _ => return Ok(false),
    }
    let defs = List::new(alloc);
    exports(
        alloc,
        &built.project,
        &built.skeletons,
        &defs,
        unit.group,
        below,
    )?;
    Ok(true)
}

/// What a unit imports. A unit of a frozen library imports nothing here.
fn imports_of(alloc: Global, built: &Built, unit: u32, group: u32) -> Result<List<Wanted>, Fault>
    requires counted { length built.now.skeletons ≡ length built.now.project.units }
{
    let below = below(alloc, built, group, false)?;
    if is_clear(alloc, built, &below, unit)? {
        imports(alloc, &built.project, &built.skeletons, &below, unit)
    } else {
        Ok(List::new(alloc))
    }
}

/// What a unit imports, as a line.
fn imports_line(alloc: Global, built: &Built, file: &[u8], unit: u32) -> Result<Vec<u8>, NoMemory>
    requires counted { length built.now.skeletons ≡ length built.now.project.units }
{
    let group = match built.project.units.get(unit as usize) {
        Some(unit) => unit.group,
        None => 0,
    };
    match imports_of(alloc, built, unit, group) {
        Ok(wanted) => {
            let mut out = Vec::new(alloc);
            push_imports(alloc, &mut out, &built.project, file, &wanted)?;
            Ok(out)
        }
        Err(fault) => refusal(alloc, &fault),
    }
}

/// What a section asks for, as lines, where each unit has a skeleton.
fn asked(alloc: Global, built: &Built, section: &Section) -> Result<Vec<u8>, CaseFault> {
    if built.skeletons.len() != built.project.units.len() {
        return Err(section.means_nothing());
    }
    let words = section.words.as_bytes();
    match section.name.as_bytes() {
        b"names" => {
            let defs = defs_of(alloc, section)?;
            let names = all_names(alloc, &built.project, &built.skeletons, &defs);
            Ok(answered(alloc, &built.project, &names)?)
        }
        b"exports" => match built.group_of(words) {
            Some(group) => Ok(exports_line(alloc, built, words, group)?),
            None => Err(section.means_nothing()),
        },
        b"imports" => match built.unit_of(words) {
            Some(unit) => Ok(imports_line(alloc, built, words, unit)?),
            None => Err(section.means_nothing()),
        },
        _ => Err(CaseFault::Wrong(section.line, Wrong::UnknownSection)),
    }
}

/// What a section asks for, as lines. A section that asks for nothing adds to the project.
fn taken(
    alloc: Global,
    built: &mut Built,
    section: &Section,
) -> Result<Option<Vec<u8>>, CaseFault> {
    match section.name.as_bytes() {
        b"source" => built.add_source(alloc, section)?,
        b"frozen" => built.add_frozen(alloc, section)?,
        b"description" => built.add_description(alloc, section)?,
        b"recorded" => built.add_recorded(alloc, section)?,
        _ => return Ok(Some(asked(alloc, built, section)?)),
    }
    Ok(None)
}

/// Takes the sections of a case in order, and compares what each that asks is answered.
pub fn try_names(alloc: Global, case: &Case, report: &mut Report) -> Result<(), CaseFault> {
    let mut built = Built::new(alloc);
    for section in case.sections.as_slice() {
        if let Some(given) = taken(alloc, &mut built, section)? {
            let wanted = section.bytes(alloc)?;
            report.compare(
                case,
                section.line,
                b"another answer",
                wanted.as_bytes(),
                given.as_slice(),
            )?;
        }
    }
    Ok(())
}
