//! A diagnostic: what is refused, and where.

ghost use Rattle.std.specs.Prelude.{◌≡◌, IfOk};

use crate::fault::NoMemory;
use crate::list::List;
use crate::text::Text;
use std::alloc::Global;

/// A place in a file: a line and a byte in it, each counted from 1, or 0 and 0 for the file as a whole.
#[derive(Clone, Debug, Drop, PartialEq, Eq)]
pub struct Place {
    pub file: Text,
    pub line: u32,
    pub col: u32,
}

/// A refusal: its number, its place, and the names that its line shows.
#[derive(Clone, Debug, Drop)]
pub struct Diag {
    pub number: u8,
    pub at: Place,
    pub names: List<Text>,
}

impl Diag {
    ghost use Rattle.cm_base.specs.Diags.{whole_file};

    /// A diagnostic on a whole file, without names.
    pub fn on_file(alloc: Global, number: u8, file: &Text) -> Result<Diag, NoMemory>
        ensures { IfOk result (λ diag. diag ≡ whole_file number file.now) }
    {
        Ok(Diag {
            number,
            at: Place {
                file: file.copy()?,
                line: 0,
                col: 0,
            },
            names: List::new(alloc),
        })
    }
}
