//! The compilers that commands run with.

use case_scenes::Asked;
use cm_base::NoMemory;
use sml_compiler::SmlCompiler;
use std::alloc::Global;
use test_compilers::Marked;

/// A compiler that can be made anew, and tells what it was asked.
pub trait Player {
    /// A compiler that was asked nothing yet.
    fn begin(alloc: Global) -> Result<Self, NoMemory>;

    /// What it was asked.
    fn asked_of(&self) -> Asked<'_>;
}

impl Player for Marked {
    fn begin(alloc: Global) -> Result<Marked, NoMemory> {
        Ok(Marked::new(alloc))
    }

    fn asked_of(&self) -> Asked<'_> {
        Asked {
            units: &self.asked,
            skeletons: &self.asked_skeletons,
        }
    }
}

impl Player for SmlCompiler {
    fn begin(alloc: Global) -> Result<SmlCompiler, NoMemory> {
        SmlCompiler::new(alloc)
    }

    fn asked_of(&self) -> Asked<'_> {
        Asked {
            units: self.asked(),
            skeletons: self.asked_skeletons(),
        }
    }
}
