//! Cases as they stand in their file.

ghost use Rattle.std.specs.Prelude.{◌≡◌, ◌↔◌, IsTrue, IfOk, IfSome, flat_map};

use crate::bytes::push_all;
use crate::fault::{CaseFault, Wrong};
use cm_base::{List, NoMemory, Text};
use std::alloc::Global;

/// A line with a margin: where it stands, the whole line, and the bytes for which it stands.
#[derive(Clone, Drop)]
pub struct Piece {
    pub line: u32,
    pub written: Text,
    pub bytes: Text,
}

/// A section: where its name stands, the name, the words behind it, and the lines below it.
#[derive(Clone, Drop)]
pub struct Section {
    pub line: u32,
    pub name: Text,
    pub words: Text,
    pub pieces: List<Piece>,
}

/// A case: where its title stands, its kind, its title, and its sections. Those that the cases of a kind share come first.
#[derive(Drop)]
pub struct Case {
    pub line: u32,
    pub kind: Text,
    pub title: Text,
    pub sections: List<Section>,
}

/// The cases of a file, in order.
#[derive(Drop)]
pub struct CaseFile {
    pub cases: List<Case>,
}

impl Section {
    /// The bytes of its lines, one behind another.
    pub fn bytes(&self, alloc: Global) -> Result<Text, NoMemory>
        ensures { IfOk result (λ text. text ≡ flat_map (λ piece. piece.bytes) self.now.pieces) }
    {
        let mut all = Vec::new(alloc);
        for piece in self.pieces.as_slice() {
            push_all(&mut all, piece.bytes.as_bytes())?;
        }
        Ok(Text::from_vec(all))
    }

    /// Whether this is its name.
    pub fn is_named(&self, name: &[u8]) -> bool
        ensures { IsTrue result ↔ (self.now.name ≡ name.now) }
    {
        self.name.as_bytes() == name
    }
}

impl Case {
    /// The section of this name, if the case has one. A second one is refused.
    pub fn find(&self, name: &[u8]) -> Result<Option<&Section>, CaseFault> {
        let mut found = None;
        for section in self.sections.as_slice() {
            if !section.is_named(name) {
                continue;
            }
            if found.is_some() {
                return Err(CaseFault::Wrong(section.line, Wrong::Twice));
            }
            found = Some(section);
        }
        Ok(found)
    }

    /// The section of this name, which the case has to have once.
    pub fn the(&self, name: &[u8]) -> Result<&Section, CaseFault> {
        self.find(name)?
            .ok_or(CaseFault::Wrong(self.line, Wrong::Missing))
    }

    /// Refuses a section that has none of these names.
    pub fn has_only(&self, names: &[&[u8]]) -> Result<(), CaseFault> {
        for section in self.sections.as_slice() {
            if !names.iter().any(|name| section.is_named(name)) {
                return Err(CaseFault::Wrong(section.line, Wrong::UnknownSection));
            }
        }
        Ok(())
    }
}
