//! Cases `store` and `binfile`: what is put into the store of a folder in memory, and found there, by steps; and the
//! bytes of a binfile.

use crate::bins::{SECTIONS, bin_of, is_short};
use bin_store::{
    Bin, StoreFault, bin_path, get_bin, get_interface, interface_path, put_bin, put_interface,
    write_bin,
};
use case_files::{Case, CaseFault, Part, Report, Wrong, number_of, push_parts};
use case_texts::{Scene, line, take_steps};
use cm_base::{CallKind, FailAt, Left, List, MemFolder, NoMemory, Text};
use cm_bytes::{pid_name, pid_of};
use std::alloc::Global;

/// The path of a unit's binfile.
pub fn unit_path(alloc: Global, unit: &Text) -> Result<Vec<u8>, NoMemory> {
    line(alloc, bin_path(alloc, unit)?.as_bytes())
}

/// The path of an interface.
pub fn hash_path(alloc: Global, interface: &Text) -> Result<Vec<u8>, NoMemory> {
    line(
        alloc,
        interface_path(alloc, &pid_of(interface.as_bytes()))?.as_bytes(),
    )
}

/// The bytes of a binfile. None for one that is too long.
pub fn file_of(alloc: Global, bin: &Bin) -> Result<Option<Text>, NoMemory> {
    if !is_short(bin) {
        return Ok(None);
    }
    Ok(Some(write_bin(alloc, bin)?))
}

/// Compares the bytes of a binfile with those that are wanted.
pub fn try_binfile(alloc: Global, case: &Case, report: &mut Report) -> Result<(), CaseFault> {
    case.has_only(&[
        SECTIONS[0],
        SECTIONS[1],
        SECTIONS[2],
        SECTIONS[3],
        SECTIONS[4],
        SECTIONS[5],
        SECTIONS[6],
        b"gives",
    ])?;
    let wanted = case.the(b"gives")?;
    match file_of(alloc, &bin_of(alloc, case)?)? {
        Some(given) => Ok(report.compare(
            case,
            wanted.line,
            b"another file",
            wanted.bytes(alloc)?.as_bytes(),
            given.as_bytes(),
        )?),
        None => Err(CaseFault::Wrong(case.line, Wrong::Words)),
    }
}

/// A folder with a store, and the binfile of the case.
#[derive(Drop)]
pub struct StoreScene {
    folder: MemFolder,
    bin: Bin,
}

/// The line of a call that failed. Want of memory is handed on.
fn fault_line(alloc: Global, fault: StoreFault) -> Result<Vec<u8>, NoMemory> {
    match fault {
        StoreFault::Folder => line(alloc, b"folder fault"),
        StoreFault::NoMemory => Err(NoMemory),
    }
}

/// The line of bytes that were found, or not.
fn found_line(alloc: Global, found: Option<&[u8]>) -> Result<Vec<u8>, NoMemory> {
    match found {
        Some(bytes) => {
            let mut out = Vec::new(alloc);
            push_parts(
                alloc,
                &mut out,
                &[Part::Text(b"found "), Part::Text(bytes), Part::Text(b"\n")],
            )?;
            Ok(out)
        }
        None => line(alloc, b"none"),
    }
}

/// What a failed write leaves, by its word.
fn left_of(word: &[u8]) -> Option<Left> {
    match word {
        b"nothing" => Some(Left::Nothing),
        _ => Some(Left::Prefix(number_of(word)?)),
    }
}

impl StoreScene {
    /// Lets the next call of a kind fail; a write leaves so many bytes, or nothing.
    fn fail(&mut self, alloc: Global, kind: CallKind, left: Left) -> Result<Vec<u8>, NoMemory> {
        let mut plan = List::new(alloc);
        plan.add(FailAt { kind, nth: 1, left })?;
        self.folder.fail(plan);
        line(alloc, b"ok")
    }

    /// Puts an interface.
    fn put_text(&mut self, alloc: Global, interface: &Text) -> Result<Option<Vec<u8>>, NoMemory> {
        if interface.as_bytes().len() >= 1 << 32 {
            return Ok(None);
        }
        match put_interface(alloc, &mut self.folder, interface) {
            Ok(pid) => Ok(Some(line(alloc, pid_name(alloc, &pid)?.as_bytes())?)),
            Err(fault) => Ok(Some(fault_line(alloc, fault)?)),
        }
    }

    /// Gets the interface that has the hash of this one.
    fn get_text(&mut self, alloc: Global, interface: &Text) -> Result<Vec<u8>, NoMemory> {
        match get_interface(alloc, &mut self.folder, &pid_of(interface.as_bytes())) {
            Ok(Some(text)) => found_line(alloc, Some(text.as_bytes())),
            Ok(None) => found_line(alloc, None),
            Err(fault) => fault_line(alloc, fault),
        }
    }

    /// Puts the binfile of the case.
    fn put_file(&mut self, alloc: Global) -> Result<Option<Vec<u8>>, NoMemory> {
        if !is_short(&self.bin) {
            return Ok(None);
        }
        match put_bin(alloc, &mut self.folder, &self.bin) {
            Ok(()) => Ok(Some(line(alloc, b"ok")?)),
            Err(fault) => Ok(Some(fault_line(alloc, fault)?)),
        }
    }

    /// The line of a binfile that was found: whether it is written again as the file at its unit's place.
    fn compared_line(&self, alloc: Global, found: &Bin) -> Result<Vec<u8>, NoMemory> {
        let file = self.folder.get(&bin_path(alloc, &found.unit)?);
        match file_of(alloc, found)? {
            Some(again) if file == Some(again.as_bytes()) => line(alloc, b"found the file"),
            _ => line(alloc, b"found another"),
        }
    }

    /// Gets the binfile of a unit.
    fn get_file(&mut self, alloc: Global, unit: &Text) -> Result<Vec<u8>, NoMemory> {
        match get_bin(alloc, &mut self.folder, unit) {
            Ok(Some(found)) => self.compared_line(alloc, &found),
            Ok(None) => line(alloc, b"none"),
            Err(fault) => fault_line(alloc, fault),
        }
    }

    /// Puts the bytes of the case's binfile at a path without a call.
    fn lay_file(&mut self, alloc: Global, path: &Text) -> Result<Option<Vec<u8>>, NoMemory> {
        match file_of(alloc, &self.bin)? {
            Some(file) => Ok(Some(self.lay(alloc, path, &file)?)),
            None => Ok(None),
        }
    }

    /// Makes the source of the case's binfile longer by so many bytes.
    fn widen(&mut self, alloc: Global, more: u32) -> Result<Vec<u8>, NoMemory> {
        let mut source = Vec::from_slice(alloc, self.bin.source.as_bytes())?;
        for _turn in 0..more {
            source.push(b'x')?;
        }
        self.bin.source = Text::from_vec(source);
        line(alloc, b"ok")
    }

    /// How many bytes a file has.
    fn size(&self, alloc: Global, path: &Text) -> Result<Vec<u8>, NoMemory> {
        let Some(file) = self.folder.get(path) else {
            return line(alloc, b"none");
        };
        let mut out = Vec::new(alloc);
        let parts = [Part::Number(file.len() as u64), Part::Text(b" bytes\n")];
        push_parts(alloc, &mut out, &parts)?;
        Ok(out)
    }

    /// Puts a file into the folder without a call.
    fn lay(&mut self, alloc: Global, path: &Text, bytes: &Text) -> Result<Vec<u8>, NoMemory> {
        self.folder.put(path, bytes.as_bytes())?;
        line(alloc, b"ok")
    }

    /// How many writes the folder has done.
    fn count(&self, alloc: Global) -> Result<Vec<u8>, NoMemory> {
        let mut out = Vec::new(alloc);
        let count = self.folder.writes().len();
        push_parts(
            alloc,
            &mut out,
            &[Part::Number(count as u64), Part::Text(b" writes\n")],
        )?;
        Ok(out)
    }
}

impl StoreScene {
    /// Takes a step of one word.
    fn step_alone(&mut self, alloc: Global, step: &[u8]) -> Result<Option<Vec<u8>>, NoMemory> {
        match step {
            b"put-binfile" => self.put_file(alloc),
            b"fail-read" => Ok(Some(self.fail(alloc, CallKind::Read, Left::Old)?)),
            b"writes" => Ok(Some(self.count(alloc)?)),
            _ => Ok(None),
        }
    }

    /// Takes a step on an interface or a unit.
    fn step_on(
        &mut self,
        alloc: Global,
        step: &[u8],
        text: &Text,
    ) -> Result<Option<Vec<u8>>, NoMemory> {
        match step {
            b"put-interface" => self.put_text(alloc, text),
            b"get-interface" => Ok(Some(self.get_text(alloc, text)?)),
            b"get-binfile" => Ok(Some(self.get_file(alloc, text)?)),
            _ => self.step_at(alloc, step, text),
        }
    }

    /// Takes a step on a path.
    fn step_at(
        &mut self,
        alloc: Global,
        step: &[u8],
        path: &Text,
    ) -> Result<Option<Vec<u8>>, NoMemory> {
        match step {
            b"lay-binfile" => self.lay_file(alloc, path),
            b"file" => Ok(Some(found_line(alloc, self.folder.get(path))?)),
            b"size" => Ok(Some(self.size(alloc, path)?)),
            _ => self.step_by(alloc, step, path.as_bytes()),
        }
    }

    /// Takes a step with a count.
    fn step_by(
        &mut self,
        alloc: Global,
        step: &[u8],
        word: &[u8],
    ) -> Result<Option<Vec<u8>>, NoMemory> {
        match (step, left_of(word), number_of(word)) {
            (b"fail-write", Some(left), _) => Ok(Some(self.fail(alloc, CallKind::Write, left)?)),
            (b"widen", _, Some(more)) => Ok(Some(self.widen(alloc, more)?)),
            _ => Ok(None),
        }
    }
}

impl Scene for StoreScene {
    fn answer(
        &mut self,
        alloc: Global,
        step: &[u8],
        words: &[Text],
    ) -> Result<Option<Vec<u8>>, NoMemory> {
        match (step, words) {
            (_, []) => self.step_alone(alloc, step),
            (_, [word]) => self.step_on(alloc, step, word),
            (b"lay", [path, bytes]) => Ok(Some(self.lay(alloc, path, bytes)?)),
            _ => Ok(None),
        }
    }
}

/// Takes the steps of a store in an empty folder.
pub fn try_store(alloc: Global, case: &Case, report: &mut Report) -> Result<(), CaseFault> {
    let mut scene = StoreScene {
        folder: MemFolder::new(alloc),
        bin: bin_of(alloc, case)?,
    };
    take_steps(alloc, &mut scene, case, report)
}
