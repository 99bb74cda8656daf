//! What is wrong with a file of cases, or with a case that can't be tried.

use cm_base::NoMemory;
use std::alloc::{AllocError, AllocFailed};
use std::io;
use std::io::ErrorKind;

/// What is wrong at a line of a file of cases.
#[derive(Clone, Copy)]
pub enum Wrong {
    /// The line is of no form.
    Line,
    /// A blank at the end of a line, which an editor may take away unseen.
    Blank,
    /// A title or a section before the first line `@ KIND`.
    NoKind,
    /// A line with a margin that no section stands above.
    NoSection,
    /// A title without text.
    NoTitle,
    /// The title of an earlier case.
    SameTitle,
    /// An escape that isn't one of those of a line with escapes.
    Escape,
    /// A line of hex bytes that has something else.
    Hex,
    /// A kind that the program doesn't know.
    Kind,
    /// A section that this kind of cases doesn't have.
    UnknownSection,
    /// A section that stands twice where one is meant.
    Twice,
    /// A section, or its text, that isn't there.
    Missing,
    /// Words behind a section's name that mean nothing.
    Words,
    /// A row without an arrow.
    NoArrow,
    /// A file without a case.
    NoCases,
}

impl Wrong {
    /// What a reader of the file is told.
    pub fn said(self) -> &'static [u8] {
        match self {
            Wrong::Line =>
                b"a line is empty, or begins with a margin, '=', '@', '#' or a section's name",
            Wrong::Blank =>
                b"a blank stands at the end of this line: it is written \\x20, \\t or \\r behind '\\'",
            Wrong::NoKind => b"no line '@ KIND' stands above this one",
            Wrong::NoSection => b"no section stands above this margin",
            Wrong::NoTitle => b"this title is empty",
            Wrong::SameTitle => b"an earlier case has this title",
            Wrong::Escape => b"this line has an escape that isn't known",
            Wrong::Hex => b"this line has something other than hex bytes",
            Wrong::Kind => b"this kind of cases isn't known",
            Wrong::UnknownSection => b"this kind of cases has no such section",
            Wrong::Twice => b"this section stands twice",
            Wrong::Missing => b"a section, or the text of one, is missing",
            Wrong::Words => b"the words of this section mean nothing",
            Wrong::NoArrow => b"this row has no arrow ' -> '",
            Wrong::NoCases => b"this file has no case",
        }
    }
}

/// Why a file of cases can't be read, or a case can't be tried.
#[derive(Drop)]
pub enum CaseFault {
    NoMemory,
    /// The file, or its folder, can't be read.
    Unreadable(ErrorKind),
    /// A line of the file, and what is wrong there.
    Wrong(u32, Wrong),
}

impl From<NoMemory> for CaseFault {
    fn from(_error: NoMemory) -> Self {
        CaseFault::NoMemory
    }
}

impl From<AllocError> for CaseFault {
    fn from(_error: AllocError) -> Self {
        CaseFault::NoMemory
    }
}

impl<T: Drop> From<AllocFailed<T>> for CaseFault {
    fn from(_error: AllocFailed<T>) -> Self {
        CaseFault::NoMemory
    }
}

impl From<io::Error> for CaseFault {
    fn from(error: io::Error) -> Self {
        match error.kind() {
            ErrorKind::OutOfMemory => CaseFault::NoMemory,
            kind => CaseFault::Unreadable(kind),
        }
    }
}
