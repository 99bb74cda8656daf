//! A compiler in whose interfaces nothing shows of a source.

use crate::asking::ask;
use crate::skeletons::capital_skeleton;
use cm_base::{CompileFault, CompileInput, Compiled, Compiler, List, Skeleton, Text};
use std::alloc::Global;

/// A compiler in whose interfaces nothing shows of a source. Its code is the source.
#[derive(Debug, Drop)]
pub struct Quiet {
    pub asked: List<Text>,
    pub asked_skeletons: List<Text>,
}

impl Quiet {
    /// A compiler that was asked nothing yet.
    pub fn new(alloc: Global) -> Quiet {
        Quiet {
            asked: List::new(alloc),
            asked_skeletons: List::new(alloc),
        }
    }
}

impl Compiler for Quiet {
    ghost use Rattle.capital_compilers.specs.CapitalSources.{capital_skeleton, quiet};

    ghost defines = { record { skel = capital_skeleton; compiled = quiet } };

    ghost asked = { λ compiler. compiler.asked };

    ghost asked_skeletons = { λ compiler. compiler.asked_skeletons };

    fn skeleton(
        &mut self,
        alloc: Global,
        unit: &Text,
        source: &Text,
    ) -> Result<Skeleton, CompileFault> {
        ask(&mut self.asked_skeletons, unit)?;
        capital_skeleton(alloc, unit, source.as_bytes())
    }

    fn compile(&mut self, alloc: Global, input: &CompileInput) -> Result<Compiled, CompileFault> {
        ask(&mut self.asked, &input.unit)?;
        Ok(Compiled {
            interface: Text::from_bytes(alloc, b"")?,
            code: input.source.copy()?,
        })
    }
}
