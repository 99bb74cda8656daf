//! A compiler of units: what it keeps of one for the next is what would be made anew.

ghost use Rattle.std.specs.Prelude.{◌≡◌, Ok};
ghost use Rattle.cm_base.specs.Calls.{Gives};
ghost use Rattle.import_reading.specs.Restored.{AreRestored};
ghost use Rattle.unit_compiling.specs.Compiled.{bare_of_source, compiled_of};
ghost use Rattle.unit_compiling.specs.Kept.{IsKept};

use crate::compiling::compile_bare;
use crate::waiting::ReadSources;
use cm_base::{CompileInput, Compiled, Fault, NoMemory, Text};
use import_reading::RestoredInterfaces;
use sml_modules::EnvGraph;
use sml_trees::BareUnit;
use std::alloc::Global;
use std::marker::Model;

/// The most bytes of interfaces that stand in the graph; all are let go where there are more.
const RESTORED_LIMIT: usize = 262_144;

/// A compiler of units. It keeps the interfaces of imports as they were read, so that an interface is read once for all
/// units that import it, and the bare units of sources between their skeleton and their compiling, so that a source is
/// read once for both; of each no more than so many bytes. What it answers hangs on none of these.
#[derive(Drop)]
pub struct UnitCompiler {
    graph: EnvGraph,
    restored: RestoredInterfaces,
    sources: ReadSources,
}

impl Model for UnitCompiler {
    ghost use Rattle.unit_compiling.specs.Kept.{IsKept};

    ghost Value = { Unit {0} };

    ghost view = { λ c. tt };

    ghost invariant = { λ c. IsKept c.graph.items c.restored c.sources };
}

/// Lets go of the interfaces that stand in a graph, where they have too many bytes.
fn let_go(graph: &mut EnvGraph, restored: &mut RestoredInterfaces)
    requires { AreRestored graph.old.items restored.old }
    ensures { AreRestored graph.new.items restored.new }
{
    if restored.bytes > RESTORED_LIMIT {
        *restored = RestoredInterfaces::new(graph.alloc());
        graph.cut(0);
    }
}

/// The interface and the code of a unit, over what is kept.
fn compile_over(
    graph: &mut EnvGraph,
    restored: &mut RestoredInterfaces,
    sources: &mut ReadSources,
    input: &CompileInput,
) -> Result<Compiled, Fault>
    requires { IsKept graph.old.items restored.old sources.old }
    ensures kept { IsKept graph.new.items restored.new sources.new }
    ensures gives { Gives result (compiled_of input.now) }
{
    let_go(graph, restored);
    match sources.bare_of(graph.alloc(), &input.unit, &input.source) {
        Ok(bare) => compile_bare(graph, restored, input, &bare),
        Err(fault) => Err(fault),
    }
}

impl UnitCompiler {
    /// A compiler that keeps nothing yet.
    pub fn new(alloc: Global) -> Result<UnitCompiler, NoMemory> {
        let graph = EnvGraph::new(alloc)?;
        Ok(UnitCompiler {
            graph,
            restored: RestoredInterfaces::new(alloc),
            sources: ReadSources::new(alloc),
        })
    }

    /// Keeps the bare unit of a source, which was read for its skeleton, until the unit is compiled.
    pub fn keep(&mut self, unit: &Text, source: &Text, bare: BareUnit) -> Result<(), NoMemory>
        requires { bare_of_source unit.now source.now ≡ Ok bare }
    {
        self.sources.keep(unit, source, bare)
    }

    /// The interface and the code of a unit, or the first of these that there is: the first diagnostic of its source; 50 at
    /// the unit as a whole, with the provider's name, for the first import whose interface can't be used; the first
    /// diagnostic of its elaboration, which is 30 to 38 or 40 to 42; and 12 at the unit as a whole, where the interface has
    /// more than 1,048,576 bytes or the code more than 8,388,608. The answer hangs on the input alone.
    pub fn compile(&mut self, input: &CompileInput) -> Result<Compiled, Fault>
        ensures { Gives result (compiled_of input.now) }
    {
        compile_over(
            &mut self.graph,
            &mut self.restored,
            &mut self.sources,
            input,
        )
    }
}
