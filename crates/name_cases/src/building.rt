//! A project that is built section by section, with the skeletons of its units.

use crate::reading::{name_of, skeleton_of};
use case_files::{CaseFault, Section, Wrong};
use case_texts::words_of;
use cm_base::{Fault, List, NoMemory, Options, Pid, Skeleton, Text};
use cm_description::{
    Description, Export, Group, MemberEntry, Project, Unit, UnitBody, read_description,
};
use std::alloc::Global;
use std::mem;

/// A project, and the skeletons of its units.
#[derive(Drop)]
pub struct Built {
    pub project: Project,
    pub skeletons: List<Skeleton>,
}

impl Built {
    /// No group and no unit.
    pub fn new(alloc: Global) -> Built {
        Built {
            project: Project {
                units: List::new(alloc),
                groups: List::new(alloc),
                finished: List::new(alloc),
            },
            skeletons: List::new(alloc),
        }
    }

    /// The number of the unit of this name.
    pub fn unit_of(&self, name: &[u8]) -> Option<u32> {
        let mut number = 0u32;
        for unit in self.project.units.as_slice() {
            if unit.name.as_bytes() == name {
                return Some(number);
            }
            number = number.saturating_add(1);
        }
        None
    }

    /// The number of the group of this file.
    pub fn group_of(&self, file: &[u8]) -> Option<u32> {
        let mut number = 0u32;
        for group in self.project.groups.as_slice() {
            if group.file.as_bytes() == file {
                return Some(number);
            }
            number = number.saturating_add(1);
        }
        None
    }

    /// Adds a unit with its skeleton. Its group comes later.
    pub fn add_unit(
        &mut self,
        name: &Text,
        body: UnitBody,
        skeleton: Skeleton,
    ) -> Result<(), NoMemory> {
        let name = name.copy()?;
        self.project.units.add(Unit {
            name,
            group: 0,
            body,
        })?;
        self.skeletons.add(skeleton)
    }

    /// Notes of units that they are the sources of a group.
    fn settle(&mut self, alloc: Global, group: u32, sources: &[u32]) {
        let mut units = mem::replace(&mut self.project.units, List::new(alloc)).into_vec();
        for source in sources {
            let source = *source as usize;
            if source < units.len() {
                units[source].group = group;
            }
        }
        self.project.units = List::from_vec(units);
    }

    /// Adds a group that ends, as the last one.
    pub fn add_group(&mut self, alloc: Global, group: Group) -> Result<(), NoMemory> {
        let number = u32::try_from(self.project.groups.len()).map_err(|_error| NoMemory)?;
        self.settle(alloc, number, group.units.as_slice());
        self.project.groups.add(group)?;
        self.project.finished.add(number)
    }

    /// Adds the source of a section `source UNIT [nobasis]`.
    pub fn add_source(&mut self, alloc: Global, section: &Section) -> Result<(), CaseFault> {
        let words = section.words(alloc)?;
        let (name, nobasis) = match words.as_slice() {
            [name] => (name, false),
            [name, option] if option.as_bytes() == b"nobasis".as_slice() => (name, true),
            _ => return Err(section.means_nothing()),
        };
        let skeleton = skeleton_of(alloc, section)?;
        Ok(self.add_unit(name, source_body(alloc, nobasis)?, skeleton)?)
    }

    /// Adds the unit of a frozen library of a section `frozen UNIT`.
    pub fn add_frozen(&mut self, alloc: Global, section: &Section) -> Result<(), CaseFault> {
        let body = UnitBody::Frozen {
            imports: List::new(alloc),
            interface: Text::from_bytes(alloc, b"")?,
            code: Text::from_bytes(alloc, b"")?,
        };
        let skeleton = skeleton_of(alloc, section)?;
        Ok(self.add_unit(&section.words, body, skeleton)?)
    }

    /// Adds a member to the units or the members of a group. One that isn't known is refused at this line.
    fn add_member(
        &self,
        line: u32,
        units: &mut List<u32>,
        members: &mut List<u32>,
        member: &MemberEntry,
    ) -> Result<(), CaseFault> {
        let path = member.path.as_bytes();
        match (self.unit_of(path), self.group_of(path)) {
            (Some(unit), _) => Ok(units.add(unit)?),
            (None, Some(group)) => Ok(members.add(group)?),
            (None, None) => Err(CaseFault::Wrong(line, Wrong::Words)),
        }
    }

    /// The group of a description that was read.
    fn group_read(
        &self,
        alloc: Global,
        line: u32,
        file: &Text,
        description: Description,
    ) -> Result<Group, CaseFault> {
        let mut units = List::new(alloc);
        let mut members = List::new(alloc);
        for member in description.members.as_slice() {
            self.add_member(line, &mut units, &mut members, member)?;
        }
        Ok(Group {
            file: file.copy()?,
            library: description.library,
            owner: 0,
            entries: description.entries,
            export_lines: description.export_lines,
            thawed: None,
            units,
            members,
        })
    }

    /// Adds the group of a description, of which the members are units and groups that are there.
    pub fn add_read(
        &mut self,
        alloc: Global,
        line: u32,
        file: &Text,
        text: &Text,
    ) -> Result<(), CaseFault> {
        match read_description(alloc, file, text) {
            Ok(description) => {
                let group = self.group_read(alloc, line, file, description)?;
                Ok(self.add_group(alloc, group)?)
            }
            Err(Fault::Diag(_diag)) => Err(CaseFault::Wrong(line, Wrong::Words)),
            Err(Fault::NoMemory) => Err(CaseFault::NoMemory),
        }
    }

    /// Adds the group of a section `description FILE`.
    pub fn add_description(&mut self, alloc: Global, section: &Section) -> Result<(), CaseFault> {
        let text = section.bytes(alloc)?;
        self.add_read(alloc, section.line, &section.words, &text)
    }

    /// The export of a line, as `structure A a.sml`.
    fn export_of(
        &self,
        alloc: Global,
        section: &Section,
        line: &[u8],
    ) -> Result<Export, CaseFault> {
        let words = words_of(alloc, line)?;
        let [space, name, unit] = words.as_slice() else {
            return Err(section.means_nothing());
        };
        match self.unit_of(unit.as_bytes()) {
            Some(unit) => Ok(Export {
                name: name_of(section, space, name)?,
                unit,
                hash: Some(Pid { bytes: [0; 32] }),
            }),
            None => Err(section.means_nothing()),
        }
    }

    /// The exports of the lines of a section.
    fn recorded(&self, alloc: Global, section: &Section) -> Result<List<Export>, CaseFault> {
        let mut recorded = List::new(alloc);
        let text = section.bytes(alloc)?;
        for line in text.as_bytes().split(|byte| *byte == b'\n') {
            if !line.is_empty() {
                recorded.add(self.export_of(alloc, section, line)?)?;
            }
        }
        Ok(recorded)
    }

    /// The numbers of the units of these names.
    fn units_of(
        &self,
        alloc: Global,
        section: &Section,
        names: &[Text],
    ) -> Result<List<u32>, CaseFault> {
        let mut units = List::new(alloc);
        for name in names {
            match self.unit_of(name.as_bytes()) {
                Some(unit) => units.add(unit)?,
                None => return Err(section.means_nothing()),
            }
        }
        Ok(units)
    }

    /// Adds the frozen library of a section `recorded FILE UNIT..`.
    pub fn add_recorded(&mut self, alloc: Global, section: &Section) -> Result<(), CaseFault> {
        let words = section.words(alloc)?;
        let [file, names @ ..] = words.as_slice() else {
            return Err(section.means_nothing());
        };
        let group = Group {
            file: file.copy()?,
            library: true,
            owner: 0,
            entries: List::new(alloc),
            export_lines: List::new(alloc),
            thawed: Some(self.recorded(alloc, section)?),
            units: self.units_of(alloc, section, names)?,
            members: List::new(alloc),
        };
        Ok(self.add_group(alloc, group)?)
    }
}

/// The body of a source. Its text isn't looked at here.
pub fn source_body(alloc: Global, nobasis: bool) -> Result<UnitBody, NoMemory> {
    Ok(UnitBody::Source {
        options: Options {
            nobasis,
            opaque: false,
        },
        source: Text::from_bytes(alloc, b"")?,
    })
}
