//! The compiler: it keeps what it was asked, and answers what its definitions say.

ghost use Rattle.std.specs.Prelude.{◌≡◌, [], ◌∷◌, ◌++◌, IfOk, OnOk, OnErr};

use crate::fault::told;
use crate::front;
use cm_base::{CompileFault, CompileInput, Compiled, Compiler, List, NoMemory, Skeleton, Text};
use std::alloc::Global;
use unit_compiling::UnitCompiler;

/// A compiler of the whole language. It keeps the units of its calls, in order, and what it read of interfaces and of
/// sources, on which no answer hangs.
#[derive(Drop)]
pub struct SmlCompiler {
    pub asked_units: List<Text>,
    pub asked_sources: List<Text>,
    units: UnitCompiler,
}

/// Adds a unit at the end of what was asked.
fn ask(asked: &mut List<Text>, unit: &Text) -> Result<(), NoMemory>
    ensures ok { OnOk result (asked.new ≡ asked.old ++ unit.now ∷ []) }
    ensures err { OnErr result (asked.new ≡ asked.old) }
{
    let name = unit.copy()?;
    match asked.push(name) {
        Ok(()) => Ok(()),
        Err(_name) => Err(NoMemory),
    }
}

impl SmlCompiler {
    /// A compiler that was asked nothing yet.
    pub fn new(alloc: Global) -> Result<SmlCompiler, NoMemory>
        ensures units { IfOk result (λ compiler. compiler.asked_units ≡ []) }
        ensures sources { IfOk result (λ compiler. compiler.asked_sources ≡ []) }
    {
        let units = UnitCompiler::new(alloc)?;
        Ok(SmlCompiler {
            asked_units: List::new(alloc),
            asked_sources: List::new(alloc),
            units,
        })
    }

    /// The units that were compiled, in order. It takes no memory.
    pub fn asked(&self) -> &List<Text>
        ensures { result.now ≡ self.now.asked_units }
    {
        &self.asked_units
    }

    /// The units whose skeletons were asked for, in order. It takes no memory.
    pub fn asked_skeletons(&self) -> &List<Text>
        ensures { result.now ≡ self.now.asked_sources }
    {
        &self.asked_sources
    }
}

#[tactic(auto, using(crate::proofs::Asked::asking))]
impl Compiler for SmlCompiler {
    ghost use Rattle.sml_compiler.specs.Front.{skeleton_definition};
    ghost use Rattle.unit_compiling.specs.Compiled.{compiled_of};

    ghost defines = { record { skel = skeleton_definition; compiled = compiled_of } };

    ghost asked = { λ compiler. compiler.asked_units };

    ghost asked_skeletons = { λ compiler. compiler.asked_sources };

    fn skeleton(
        &mut self,
        alloc: Global,
        unit: &Text,
        source: &Text,
    ) -> Result<Skeleton, CompileFault> {
        ask(&mut self.asked_sources, unit)?;
        front::skeleton(alloc, &mut self.units, unit, source)
    }

    fn compile(&mut self, _alloc: Global, input: &CompileInput) -> Result<Compiled, CompileFault> {
        ask(&mut self.asked_units, &input.unit)?;
        match self.units.compile(input) {
            Ok(made) => Ok(made),
            Err(fault) => Err(told(fault)),
        }
    }
}
