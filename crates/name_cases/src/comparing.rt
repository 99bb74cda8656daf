//! Cases `compared`: projects made by a counter, of which all names are those that a plain program finds.

use crate::counted::project_of;
use crate::plain::plain_names;
use crate::showing::answered;
use case_files::{Case, CaseFault, Part, Report, Section, Wrong, number_of, push_all, push_parts};
use cm_base::{Fault, List, NoMemory};
use std::alloc::Global;
use visibility::{Names, all_names};

/// How many projects each answer had: names, and the refusals 22 to 25.
#[derive(Clone, Copy)]
struct Counts {
    names: u64,
    refusals: [u64; 4],
}

impl Counts {
    /// Counts an answer.
    fn count(&mut self, names: &Result<Names, Fault>) {
        match names {
            Ok(_) => self.names = self.names.saturating_add(1),
            Err(Fault::Diag(diag)) => {
                let number = diag.number;
                if 22 <= number && number <= 25 {
                    let at = (number - 22) as usize;
                    self.refusals[at] = self.refusals[at].saturating_add(1);
                }
            }
            Err(Fault::NoMemory) => {}
        }
    }

    /// Whether each of these answers was there.
    fn has_all(&self) -> bool {
        self.names > 0 && self.refusals.iter().all(|count| *count > 0)
    }
}

/// Adds a project that differs: its number, what is answered, and what the plain program answers.
fn push_differing(
    alloc: Global,
    out: &mut Vec<u8>,
    number: u32,
    given: &[u8],
    plain: &[u8],
) -> Result<(), NoMemory> {
    let heading = [
        Part::Text(b"project "),
        Part::Number(u64::from(number)),
        Part::Text(b" is\n"),
    ];
    push_parts(alloc, out, &heading)?;
    push_all(out, given)?;
    push_all(out, b"and by the plain program\n")?;
    push_all(out, plain)
}

/// Compares a project.
fn compare(
    alloc: Global,
    out: &mut Vec<u8>,
    counts: &mut Counts,
    line: u32,
    number: u32,
) -> Result<(), CaseFault> {
    let built = project_of(alloc, line, number)?;
    if built.skeletons.len() != built.project.units.len() {
        return Err(CaseFault::Wrong(line, Wrong::Words));
    }
    let names = all_names(alloc, &built.project, &built.skeletons, &List::new(alloc));
    counts.count(&names);
    let given = answered(alloc, &built.project, &names)?;
    let plain = answered(alloc, &built.project, &plain_names(alloc, &built))?;
    if given.as_slice() != plain.as_slice() {
        push_differing(alloc, out, number, given.as_slice(), plain.as_slice())?;
    }
    Ok(())
}

/// The projects that differ, and whether names and each refusal were there.
fn compared(alloc: Global, section: &Section) -> Result<Vec<u8>, CaseFault> {
    let words = section.words(alloc)?;
    let [from, upto] = words.as_slice() else {
        return Err(section.means_nothing());
    };
    let (Some(from), Some(upto)) = (number_of(from.as_bytes()), number_of(upto.as_bytes())) else {
        return Err(section.means_nothing());
    };
    let mut out = Vec::new(alloc);
    let mut counts = Counts {
        names: 0,
        refusals: [0; 4],
    };
    for number in from..upto {
        compare(alloc, &mut out, &mut counts, section.line, number)?;
    }
    if !counts.has_all() {
        push_all(&mut out, b"names, 22, 23, 24 or 25 is missing\n")?;
    }
    push_all(&mut out, b"no other differs\n")?;
    Ok(out)
}

/// Compares the projects of a case.
pub fn try_compared(alloc: Global, case: &Case, report: &mut Report) -> Result<(), CaseFault> {
    case.has_only(&[b"projects"])?;
    let section = case.the(b"projects")?;
    let given = compared(alloc, section)?;
    let wanted = section.bytes(alloc)?;
    report.compare(
        case,
        section.line,
        b"another answer",
        wanted.as_bytes(),
        given.as_slice(),
    )?;
    Ok(())
}
