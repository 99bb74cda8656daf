//! Builds of a case's units over a store in memory.

ghost use Rattle.std.specs.Prelude.{◌≡◌, ◌<◌, ◌^◌, length};

use crate::ordering::{are_below, are_empty, are_short, are_short_units, order_of};
use crate::units::{
    CaseUnit, all_wanted, edges_of, names_of, numbered_unit, project_of, skeletons_of,
};
use case_files::{CaseFault, Part, Section, push_all, push_parts};
use case_scenes::{
    Answer, Asked, Files, Stage, counted, lines_of, look_at, look_of, push_diag, unknown,
};
use cm_base::{Built, How, List, MemFolder, NoMemory, Options, Skeleton, Text};
use cm_description::{Project, Wanted};
use cutoff_builder::{BuildFault, build};
use dependency_graph::UnitOrder;
use std::alloc::Global;
use test_compilers::Marked;

/// A folder, the units, and what the last build asked its compiler.
#[derive(Drop)]
pub struct Builds {
    files: Files,
    units: Vec<CaseUnit>,
    compiler: Marked,
}

/// A section of builds that is neither a change nor a look.
#[derive(Clone, Copy)]
enum Step {
    /// `unit NAME [nobasis|opaque] PROVIDER..`: the next unit, which uses the structure `A` of each of these units; the
    /// lines below are its source. A unit that is there already is replaced.
    Unit,
    /// `source COUNT`: the lines below, so many times, are the source of the last unit.
    Source,
    /// `drop NAME`: the unit goes.
    Drop,
    /// `chain COUNT`: so many units, each of which uses the one before it.
    Chain,
    /// `fan COUNT`: so many units, each of which uses the first.
    Fan,
    /// `build`: the lines below are the units that it builds, and how it ends where it doesn't end well.
    Build,
}

/// The steps with their names.
const STEPS: [(&[u8], Step); 6] = [
    (b"unit", Step::Unit),
    (b"source", Step::Source),
    (b"drop", Step::Drop),
    (b"chain", Step::Chain),
    (b"fan", Step::Fan),
    (b"build", Step::Build),
];

/// The step of this name.
fn step_of(name: &[u8]) -> Option<Step> {
    for (known, step) in STEPS {
        if known == name {
            return Some(step);
        }
    }
    None
}

/// Copies of some texts.
fn copies(alloc: Global, texts: &[Text]) -> Result<List<Text>, NoMemory> {
    let mut made = List::new(alloc);
    for text in texts {
        made.add(text.copy()?)?;
    }
    Ok(made)
}

/// The options of a word, if it is one of options.
fn options_of(word: &[u8]) -> Option<Options> {
    if word == b"nobasis".as_slice() {
        Some(Options {
            nobasis: true,
            opaque: false,
        })
    } else if word == b"opaque".as_slice() {
        Some(Options {
            nobasis: false,
            opaque: true,
        })
    } else {
        None
    }
}

/// The options that words begin with, and the words behind them.
fn split_options(words: &[Text]) -> (Options, &[Text]) {
    let none = Options {
        nobasis: false,
        opaque: false,
    };
    match words {
        [word, rest @ ..] => match options_of(word.as_bytes()) {
            Some(options) => (options, rest),
            None => (none, words),
        },
        [] => (none, words),
    }
}

/// The unit that a section names, with the section's lines as its source.
fn named_unit(alloc: Global, section: &Section) -> Result<CaseUnit, CaseFault> {
    let source = section.bytes(alloc)?;
    match section.words(alloc)?.as_slice() {
        [name, rest @ ..] => {
            let (options, providers) = split_options(rest);
            Ok(CaseUnit {
                name: name.copy()?,
                options,
                providers: copies(alloc, providers)?,
                source,
            })
        }
        [] => Err(section.means_nothing()),
    }
}

/// The word for how a unit came.
fn how_word(how: How) -> &'static [u8] {
    match how {
        How::Compiled => b"[compiling ",
        How::Loaded => b"[loading ",
        How::Frozen => b"[frozen ",
    }
}

/// The lines of units that were built.
fn built_lines(alloc: Global, built: &Built) -> Result<Vec<u8>, NoMemory> {
    let mut out = Vec::new(alloc);
    for unit in built.units.as_slice() {
        let parts = [
            Part::Text(how_word(unit.how)),
            Part::Text(unit.unit.as_bytes()),
            Part::Text(b"]\n"),
        ];
        push_parts(alloc, &mut out, &parts)?;
    }
    Ok(out)
}

/// The lines of a build that ended so.
fn end_lines(alloc: Global, end: &Result<Built, BuildFault>) -> Result<Vec<u8>, NoMemory> {
    match end {
        Ok(built) => built_lines(alloc, built),
        Err(BuildFault::Stop { diag, done }) => {
            let mut out = built_lines(alloc, done)?;
            push_diag(alloc, &mut out, diag)?;
            Ok(out)
        }
        Err(BuildFault::Folder) => Ok(Vec::from_slice(alloc, b"[folder fault]\n")?),
        Err(BuildFault::NoMemory) => Err(NoMemory),
    }
}

/// The build of a project; none where its lists don't fit together.
fn build_in_order(
    alloc: Global,
    folder: &mut MemFolder,
    compiler: &mut Marked,
    project: &Project,
    skeletons: &List<Skeleton>,
    wanted: &List<List<Wanted>>,
    order: &UnitOrder,
) -> Option<Result<Built, BuildFault>>
    requires counted { length order.now ≡ length project.now.units }
    requires few { length project.now.units < 2 ^ 32 }
{
    let count = project.units.len();
    if skeletons.len() != count || wanted.len() != count || !are_below(wanted.as_slice(), count) {
        return None;
    }
    if !are_empty(skeletons.as_slice())
        || !are_short(wanted.as_slice())
        || !are_short_units(project.units.as_slice())
    {
        return None;
    }
    Some(build(alloc, folder, compiler, project, skeletons, wanted, order))
}

impl Builds {
    /// An empty folder, and no unit.
    pub fn new(alloc: Global) -> Builds {
        Builds {
            files: Files::new(alloc),
            units: Vec::new(alloc),
            compiler: Marked::new(alloc),
        }
    }

    /// What the last build asked its compiler.
    fn asked(&self) -> Asked<'_> {
        Asked {
            units: &self.compiler.asked,
            skeletons: &self.compiler.asked_skeletons,
        }
    }

    /// Puts a unit in the place of the one of its name, or at the end.
    fn set_unit(&mut self, unit: CaseUnit) -> Result<(), NoMemory> {
        for known in self.units.as_mut_slice() {
            if known.name == unit.name {
                *known = unit;
                return Ok(());
            }
        }
        self.units.push(unit)?;
        Ok(())
    }

    /// Gives the last unit its source.
    fn set_source(&mut self, alloc: Global, section: &Section) -> Result<(), CaseFault> {
        let source = lines_of(alloc, section)?;
        match self.units.as_mut_slice() {
            [.., unit] => {
                unit.source = source;
                Ok(())
            }
            [] => Err(section.means_nothing()),
        }
    }

    /// Takes a unit away.
    fn drop_unit(&mut self, section: &Section) -> Result<(), CaseFault> {
        match self
            .units
            .iter()
            .position(|unit| unit.name == section.words)
        {
            Some(at) => {
                self.units.remove(at);
                Ok(())
            }
            None => Err(section.means_nothing()),
        }
    }

    /// Adds so many units over the one before each or over the first.
    fn add_many(
        &mut self,
        alloc: Global,
        section: &Section,
        is_chain: bool,
    ) -> Result<(), CaseFault> {
        for number in 0..counted(section, section.words.as_bytes())? {
            let below = if is_chain {
                number.saturating_sub(1)
            } else {
                0
            };
            let provider = if number == 0 { None } else { Some(below) };
            self.units.push(numbered_unit(alloc, number, provider)?)?;
        }
        Ok(())
    }

    /// Builds the units, and answers what was built and how it ended; nothing where they have no order.
    fn build(&mut self, alloc: Global) -> Result<Option<Text>, NoMemory> {
        let units = self.units.as_slice();
        let project = project_of(alloc, units)?;
        let skeletons = skeletons_of(alloc, units)?;
        let edges = edges_of(alloc, units)?;
        let wanted = all_wanted(alloc, edges.as_slice())?;
        let names = names_of(alloc, units)?;
        let Some(order) = order_of(alloc, &names, &edges)? else {
            return Ok(None);
        };
        if project.units.len() != names.len() || names.len() >= 1 << 32 {
            return Ok(None);
        }
        self.files.begin();
        self.compiler = Marked::new(alloc);
        let folder = &mut self.files.folder;
        match build_in_order(
            alloc,
            folder,
            &mut self.compiler,
            &project,
            &skeletons,
            &wanted,
            &order,
        ) {
            Some(end) => Ok(Some(Text::from_vec(end_lines(alloc, &end)?))),
            None => Ok(None),
        }
    }
}

impl Stage for Builds {
    fn take(&mut self, alloc: Global, section: &Section) -> Result<Option<Answer>, CaseFault> {
        if self.files.is_changed_by(section)? {
            return Ok(None);
        }
        if let Some(look) = look_of(section.name.as_bytes()) {
            let answer = look_at(alloc, look, section, &self.files, self.asked())?;
            return Ok(Some(answer));
        }
        match step_of(section.name.as_bytes()) {
            Some(Step::Unit) => self.set_unit(named_unit(alloc, section)?)?,
            Some(Step::Source) => self.set_source(alloc, section)?,
            Some(Step::Drop) => self.drop_unit(section)?,
            Some(Step::Chain) => self.add_many(alloc, section, true)?,
            Some(Step::Fan) => self.add_many(alloc, section, false)?,
            Some(Step::Build) => {
                return match self.build(alloc)? {
                    Some(given) => Ok(Some(Answer {
                        wanted: section.bytes(alloc)?,
                        given,
                    })),
                    None => Err(section.means_nothing()),
                };
            }
            None => return Err(unknown(section)),
        }
        Ok(None)
    }
}
