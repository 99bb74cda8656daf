//! A project that edits change, each as a counter chooses it: six sources in two groups, their descriptions, and the
//! definition of the next command.

use crate::counter::Counter;
use crate::script::Script;
use case_files::push_all;
use cm_base::{Folder, List, MemFolder, NoMemory, SureFolder, Text};
use std::alloc::Global;

/// A source: its file, and the letter of its structure.
type Source = (&'static [u8], u8);

/// The sources, each two of which are neighbours.
const SOURCES: [Source; 6] = [
    (b"a.sml", b'A'),
    (b"b.sml", b'B'),
    (b"c.sml", b'C'),
    (b"d.sml", b'D'),
    (b"e.sml", b'E'),
    (b"f.sml", b'F'),
];

/// How many of them are of the lower group, which the upper one uses.
const LOWER: usize = 2;

/// What shows of a source.
const SHOWN: [&[u8]; 5] = [b"int", b"int", b"int * int", b"real", b"string"];

/// What is hidden of a source: some are refused with a `string` that they are given, some with a `real` too.
const HIDDEN: [&[u8]; 12] = [
    b"1", b"2", b"3", b"4", b"5", b"6", b"7", b"8", b"9", b"", b"?s 1", b"?r 1",
];

/// The class and the options of a member.
const CLASSES: [&[u8]; 6] = [
    b"",
    b"",
    b"",
    b" : sml",
    b" : sml (nobasis)",
    b" : sml (opaque)",
];

/// The lines of the lower group before its members.
const LOWER_HEADS: [&[u8]; 6] = [
    b"Group is\n",
    b"Group is\n",
    b"Group is\n",
    b"Library structure A structure B is\n",
    b"Library structure A structure B is\n",
    b"Library structure A is\n",
];

/// The definitions that a command may have.
const DEFINITIONS: [&str; 3] = ["X=0", "X=1", "X=2"];

/// Where the linked program stands.
pub const LINKED: &[u8] = b".cm/linked";

/// What an edit changes.
#[derive(Clone, Copy)]
enum Edit {
    /// A source gets another text, or one again that it had.
    Source,
    /// Two neighbours exchange their texts.
    Exchange,
    /// The upper group is described anew.
    Upper,
    /// The lower group is described anew.
    Lower,
    /// The next commands have another definition, or none.
    Definition,
    /// A source is taken away.
    Removal,
    /// A file of the store is taken away, cut, or gets the bytes of another one.
    Store,
}

/// The word for what an edit changes.
fn edit_word(edit: Edit) -> &'static [u8] {
    match edit {
        Edit::Source => b"source",
        Edit::Exchange => b"exchange",
        Edit::Upper => b"upper",
        Edit::Lower => b"lower",
        Edit::Definition => b"definition",
        Edit::Removal => b"removal",
        Edit::Store => b"store",
    }
}

/// A project in a folder, its store, the definition of the next command, and the edits of the project so far.
#[derive(Drop)]
pub struct Sketch {
    alloc: Global,
    pub counter: Counter,
    pub folder: MemFolder,
    pub definition: Option<&'static str>,
    pub script: Script,
}

/// The next choice among texts.
fn chosen(counter: &mut Counter, texts: &[&'static [u8]]) -> &'static [u8] {
    let at = counter.place_in(texts.len());
    texts.get(at).copied().unwrap_or(b"")
}

/// The next edit: mostly one of a source.
fn next_edit(counter: &mut Counter) -> Edit {
    match counter.below(100) {
        0..=49 => Edit::Source,
        50..=59 => Edit::Exchange,
        60..=67 => Edit::Upper,
        68..=73 => Edit::Lower,
        74..=83 => Edit::Definition,
        84 => Edit::Removal,
        _ => Edit::Store,
    }
}

/// The next edit, with one of a source in the place of one of the store.
fn next_project_edit(counter: &mut Counter) -> Edit {
    match next_edit(counter) {
        Edit::Store => Edit::Source,
        edit => edit,
    }
}

/// The path of the source at a place.
fn path_at(alloc: Global, place: usize) -> Result<Text, NoMemory> {
    Text::from_bytes(alloc, SOURCES[place % SOURCES.len()].0)
}

/// The letter of the source at a place.
fn letter_at(place: usize) -> u8 {
    SOURCES[place % SOURCES.len()].1
}

/// The place of a source's neighbour.
fn neighbour_of(place: usize) -> usize {
    place ^ 1
}

/// Adds the letters that a source uses: some of those before its own, and seldom one behind it.
fn push_uses(out: &mut Vec<u8>, counter: &mut Counter, own: u8) -> Result<(), NoMemory> {
    for letter in b'A'..=b'F' {
        if counter.takes(if letter < own { 4 } else { 600 }) {
            push_all(out, &[letter])?;
        }
    }
    Ok(())
}

/// The first letter of a source: mostly its own, and seldom one that refuses it or that two sources define.
fn next_letter(counter: &mut Counter, own: u8) -> u8 {
    match counter.below(200) {
        0 => b'!',
        1 | 2 => b'A',
        _ => own,
    }
}

/// Adds the hidden part of a source, seldom with the mark before it that refuses the source.
fn push_hidden(out: &mut Vec<u8>, counter: &mut Counter) -> Result<(), NoMemory> {
    if counter.takes(100) {
        push_all(out, b"!")?;
    }
    push_all(out, chosen(counter, &HIDDEN))
}

/// The next text of the source that defines the structure of this letter.
fn next_text(alloc: Global, counter: &mut Counter, own: u8) -> Result<Vec<u8>, NoMemory> {
    let mut out = Vec::new(alloc);
    push_all(&mut out, &[next_letter(counter, own)])?;
    push_uses(&mut out, counter, own)?;
    push_all(&mut out, b":")?;
    push_all(&mut out, chosen(counter, &SHOWN))?;
    push_all(&mut out, b";")?;
    push_hidden(&mut out, counter)?;
    push_all(&mut out, b"\n")?;
    Ok(out)
}

/// Adds a member with the class and the options that are the next choice.
fn push_member(out: &mut Vec<u8>, counter: &mut Counter, file: &[u8]) -> Result<(), NoMemory> {
    push_all(out, file)?;
    push_all(out, chosen(counter, &CLASSES))?;
    push_all(out, b"\n")
}

/// Adds a member, or leaves it out, or puts it under a condition.
fn push_chosen(out: &mut Vec<u8>, counter: &mut Counter, file: &[u8]) -> Result<(), NoMemory> {
    match counter.below(24) {
        0 => Ok(()),
        1 | 2 => {
            push_all(out, b"#if X < 2\n")?;
            push_member(out, counter, file)?;
            push_all(out, b"#endif\n")
        }
        _ => push_member(out, counter, file),
    }
}

/// Adds the members of a group.
fn push_members(
    out: &mut Vec<u8>,
    counter: &mut Counter,
    sources: &[Source],
) -> Result<(), NoMemory> {
    for (file, _letter) in sources {
        push_chosen(out, counter, file)?;
    }
    Ok(())
}

/// The files of a folder whose paths begin so.
pub fn paths_below(
    alloc: Global,
    folder: &mut SureFolder,
    prefix: &[u8],
) -> Result<List<Text>, NoMemory> {
    let prefix = Text::from_bytes(alloc, prefix)?;
    let mut paths = List::new(alloc);
    match folder.list(alloc, &prefix, &mut paths) {
        Ok(()) => Ok(paths),
        // a folder that never fails has no other fault
        Err(_fault) => Err(NoMemory),
    }
}

impl Sketch {
    /// The project of this number, with no store yet.
    pub fn new(alloc: Global, number: u32) -> Result<Sketch, NoMemory> {
        let mut sketch = Sketch {
            alloc,
            counter: Counter::new(number),
            folder: MemFolder::new(alloc),
            definition: None,
            script: Script::new(alloc),
        };
        sketch.write_lower()?;
        sketch.write_upper()?;
        for place in 0..SOURCES.len() {
            sketch.write_source(place)?;
        }
        Ok(sketch)
    }

    /// Writes a file of the project.
    fn write(&mut self, path: &Text, bytes: &[u8]) -> Result<(), NoMemory> {
        self.script.write(path, bytes)?;
        self.folder.put(path, bytes)
    }

    /// The letter that the source at a place is to define: its own, or its neighbour's where that defines its own.
    fn free_letter(&self, place: usize) -> Result<u8, NoMemory> {
        let neighbour = path_at(self.alloc, neighbour_of(place))?;
        match self.folder.get(&neighbour) {
            Some([first, ..]) if *first == letter_at(place) => Ok(letter_at(neighbour_of(place))),
            _ => Ok(letter_at(place)),
        }
    }

    /// Writes the source at a place.
    fn write_source(&mut self, place: usize) -> Result<(), NoMemory> {
        let letter = self.free_letter(place)?;
        let text = next_text(self.alloc, &mut self.counter, letter)?;
        self.write(&path_at(self.alloc, place)?, text.as_slice())
    }

    /// Exchanges the bytes of two files of the project, if both are there.
    fn exchange(&mut self, path: &Text, other: &Text) -> Result<(), NoMemory> {
        if self.folder.get(path).is_none() || self.folder.get(other).is_none() {
            return Ok(());
        }
        let bytes = self.copy_of(path)?;
        let others = self.copy_of(other)?;
        self.write(path, others.as_slice())?;
        self.write(other, bytes.as_slice())
    }

    /// Exchanges the texts of the source at a place and its neighbour, so that the structures of both move.
    fn exchange_sources(&mut self, place: usize) -> Result<(), NoMemory> {
        let path = path_at(self.alloc, place)?;
        let neighbour = path_at(self.alloc, neighbour_of(place))?;
        self.exchange(&path, &neighbour)
    }

    /// Writes the description of the lower group.
    fn write_lower(&mut self) -> Result<(), NoMemory> {
        let mut out = Vec::from_slice(self.alloc, chosen(&mut self.counter, &LOWER_HEADS))?;
        push_members(&mut out, &mut self.counter, &SOURCES[..LOWER])?;
        self.write(&Text::from_bytes(self.alloc, b"lower.cm")?, out.as_slice())
    }

    /// Writes the description of the upper group, which is the project's.
    fn write_upper(&mut self) -> Result<(), NoMemory> {
        let mut out = Vec::from_slice(self.alloc, b"Group is\n")?;
        if !self.counter.takes(30) {
            push_all(&mut out, b"lower.cm\n")?;
        }
        push_members(&mut out, &mut self.counter, &SOURCES[LOWER..])?;
        self.write(&Text::from_bytes(self.alloc, b"main.cm")?, out.as_slice())
    }

    /// Takes the source at a place away.
    fn remove_source(&mut self, place: usize) -> Result<(), NoMemory> {
        let path = path_at(self.alloc, place)?;
        self.script.remove(&path)?;
        self.folder.files.take(&path);
        Ok(())
    }

    /// Changes the definition.
    fn define(&mut self) {
        let at = self.counter.place_in(DEFINITIONS.len() + 1);
        self.definition = DEFINITIONS.get(at).copied();
    }

    /// A copy of the linked program; an empty one where there is none.
    pub fn linked(&self) -> Result<Vec<u8>, NoMemory> {
        self.copy_of(&Text::from_bytes(self.alloc, LINKED)?)
    }

    /// A copy of a file; an empty one of one that isn't there.
    fn copy_of(&self, path: &Text) -> Result<Vec<u8>, NoMemory> {
        Ok(Vec::from_slice(self.alloc, self.folder.get(path).unwrap_or(b""))?)
    }

    /// Copies a file of the project to another folder; one of the store isn't.
    fn copy_out(&self, fresh: &mut SureFolder, path: &Text) -> Result<(), NoMemory> {
        if path.as_bytes().starts_with(b".cm/") {
            return Ok(());
        }
        let bytes = self.copy_of(path)?;
        fresh.put(path, bytes.as_slice())
    }

    /// A fresh folder with the project's files, without its store.
    pub fn project(&mut self) -> Result<SureFolder, NoMemory> {
        let mut fresh = SureFolder::new(self.alloc);
        let paths = paths_below(self.alloc, &mut self.folder.files, b"")?;
        for path in paths.as_slice() {
            self.copy_out(&mut fresh, path)?;
        }
        Ok(fresh)
    }

    /// Gives a file of the store the bytes of another.
    fn copy_to(&mut self, path: &Text, from: &Text) -> Result<(), NoMemory> {
        let bytes = self.copy_of(from)?;
        self.folder.put(path, bytes.as_slice())
    }

    /// Cuts a file of the store.
    fn cut(&mut self, path: &Text) -> Result<(), NoMemory> {
        let mut bytes = self.copy_of(path)?;
        bytes.truncate(self.counter.place_in(bytes.len()));
        self.folder.put(path, bytes.as_slice())
    }

    /// Harms a file of the store, if there is one.
    fn harm_store(&mut self) -> Result<(), NoMemory> {
        let paths = paths_below(self.alloc, &mut self.folder.files, b".cm/")?;
        let at = self.counter.place_in(paths.len());
        let from = self.counter.place_in(paths.len());
        let (Some(path), Some(other)) = (paths.get(at), paths.get(from)) else {
            return Ok(());
        };
        match self.counter.below(3) {
            0 => {
                self.folder.files.take(path);
                Ok(())
            }
            1 => self.cut(path),
            _ => self.copy_to(path, other),
        }
    }

    /// Does an edit, of a source at this place where it is one of a source.
    fn do_edit(&mut self, edit: Edit, place: usize) -> Result<(), NoMemory> {
        match edit {
            Edit::Source => self.write_source(place),
            Edit::Exchange => self.exchange_sources(place),
            Edit::Upper => self.write_upper(),
            Edit::Lower => self.write_lower(),
            Edit::Definition => {
                self.define();
                Ok(())
            }
            Edit::Removal => self.remove_source(place),
            Edit::Store => self.harm_store(),
        }
    }

    /// Does an edit at the next place, and answers the word for what it changes.
    fn edit_somewhere(&mut self, edit: Edit) -> Result<&'static [u8], NoMemory> {
        let place = self.counter.place_in(SOURCES.len());
        self.do_edit(edit, place)?;
        Ok(edit_word(edit))
    }

    /// Does the next edit, and answers the word for what it changes.
    pub fn edit(&mut self) -> Result<&'static [u8], NoMemory> {
        let edit = next_edit(&mut self.counter);
        self.edit_somewhere(edit)
    }

    /// The same with a source in the place of the store.
    pub fn edit_project(&mut self) -> Result<&'static [u8], NoMemory> {
        let edit = next_project_edit(&mut self.counter);
        self.edit_somewhere(edit)
    }
}
