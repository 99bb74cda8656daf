//! A compiler whose interfaces are the sources.

use crate::asking::ask;
use crate::skeletons::capital_skeleton;
use cm_base::{CompileFault, CompileInput, Compiled, Compiler, List, Skeleton, Text};
use std::alloc::Global;

/// A compiler whose interfaces are the sources. Its code is the source.
#[derive(Debug, Drop)]
pub struct Shown {
    pub asked: List<Text>,
    pub asked_skeletons: List<Text>,
}

impl Shown {
    /// A compiler that was asked nothing yet.
    pub fn new(alloc: Global) -> Shown {
        Shown {
            asked: List::new(alloc),
            asked_skeletons: List::new(alloc),
        }
    }
}

impl Compiler for Shown {
    ghost use Rattle.capital_compilers.specs.CapitalSources.{capital_skeleton, shown};

    ghost defines = { record { skel = capital_skeleton; compiled = shown } };

    ghost asked = { λ compiler. compiler.asked };

    ghost asked_skeletons = { λ compiler. compiler.asked_skeletons };

    fn skeleton(
        &mut self,
        alloc: Global,
        unit: &Text,
        source: &Text,
    ) -> Result<Skeleton, CompileFault> {
        ask(&mut self.asked_skeletons, unit)?;
        capital_skeleton(alloc, unit, source.as_bytes())
    }

    fn compile(&mut self, alloc: Global, input: &CompileInput) -> Result<Compiled, CompileFault> {
        ask(&mut self.asked, &input.unit)?;
        Ok(Compiled {
            interface: input.source.copy()?,
            code: input.source.copy()?,
        })
    }
}
