//! The compilers that commands run with.

use capital_compilers::{Quiet, Shown};
use case_scenes::Asked;
use cm_base::NoMemory;
use sml_compiler::SmlCompiler;
use std::alloc::Global;
use test_compilers::{Letters, Seamed};

/// A compiler that can be made anew, and tells what it was asked.
pub trait Player {
    /// A compiler that was asked nothing yet.
    fn begin(alloc: Global) -> Result<Self, NoMemory>;

    /// What it was asked.
    fn asked_of(&self) -> Asked<'_>;
}

impl Player for Letters {
    fn begin(alloc: Global) -> Result<Letters, NoMemory> {
        Ok(Letters::new(alloc))
    }

    fn asked_of(&self) -> Asked<'_> {
        Asked {
            units: &self.asked,
            skeletons: &self.asked_skeletons,
        }
    }
}

impl Player for Seamed {
    fn begin(alloc: Global) -> Result<Seamed, NoMemory> {
        Ok(Seamed::new(alloc))
    }

    fn asked_of(&self) -> Asked<'_> {
        Asked {
            units: &self.asked,
            skeletons: &self.asked_skeletons,
        }
    }
}

impl Player for Quiet {
    fn begin(alloc: Global) -> Result<Quiet, NoMemory> {
        Ok(Quiet::new(alloc))
    }

    fn asked_of(&self) -> Asked<'_> {
        Asked {
            units: &self.asked,
            skeletons: &self.asked_skeletons,
        }
    }
}

impl Player for Shown {
    fn begin(alloc: Global) -> Result<Shown, NoMemory> {
        Ok(Shown::new(alloc))
    }

    fn asked_of(&self) -> Asked<'_> {
        Asked {
            units: &self.asked,
            skeletons: &self.asked_skeletons,
        }
    }
}

impl Player for SmlCompiler {
    fn begin(alloc: Global) -> Result<SmlCompiler, NoMemory> {
        SmlCompiler::new(alloc)
    }

    fn asked_of(&self) -> Asked<'_> {
        Asked {
            units: self.asked(),
            skeletons: self.asked_skeletons(),
        }
    }
}
