//! How a case is played: a stage takes its sections, one after another, and some of them have an answer.

ghost use Rattle.std.specs.Prelude.{◌≢◌, ◌<◌};

use case_files::{Case, CaseFault, Report, Section, Wrong, push_all};
use cm_base::{NoMemory, Text};
use std::alloc::Global;

/// What a section wants, and what was given.
#[derive(Drop)]
pub struct Answer {
    pub wanted: Text,
    pub given: Text,
}

/// Where a case plays.
pub trait Stage {
    /// Takes a section. It refuses one that its kind doesn't have.
    fn take(&mut self, alloc: Global, section: &Section) -> Result<Option<Answer>, CaseFault>;
}

/// The refusal of a section that a kind doesn't have.
pub fn unknown(section: &Section) -> CaseFault {
    CaseFault::Wrong(section.line, Wrong::UnknownSection)
}

/// What is said of a section whose answer differs.
fn said_of(alloc: Global, section: &Section) -> Result<Vec<u8>, NoMemory> {
    let mut said = Vec::from_slice(alloc, section.name.as_bytes())?;
    push_all(&mut said, b" differs")?;
    Ok(said)
}

/// Compares the answer of a section. One that differs from what is wanted is counted.
fn compare(
    case: &Case,
    section: &Section,
    said: &[u8],
    answer: &Answer,
    report: &mut Report,
) -> Result<(), NoMemory>
    ensures differs { answer.now.wanted ≢ answer.now.given → 0 < report.new.differing }
{
    report.compare(
        case,
        section.line,
        said,
        answer.wanted.as_bytes(),
        answer.given.as_bytes(),
    )
}

/// Plays the sections of a case, of which one has an answer at least.
pub fn play_on<S: Stage>(
    alloc: Global,
    stage: &mut S,
    case: &Case,
    report: &mut Report,
) -> Result<(), CaseFault> {
    let mut is_answered = false;
    for section in case.sections.as_slice() {
        if let Some(answer) = stage.take(alloc, section)? {
            let said = said_of(alloc, section)?;
            compare(case, section, said.as_slice(), &answer, report)?;
            is_answered = true;
        }
    }
    if !is_answered {
        return Err(CaseFault::Wrong(case.line, Wrong::Missing));
    }
    Ok(())
}

/// Plays a case on a stage of its own.
pub fn play<S: Stage + Drop>(
    alloc: Global,
    mut stage: S,
    case: &Case,
    report: &mut Report,
) -> Result<(), CaseFault> {
    play_on(alloc, &mut stage, case, report)
}
