//! A unit is compiled.

ghost use Rattle.std.specs.Prelude.{◌≡◌, []};
ghost use Rattle.cm_base.specs.Calls.{Gives};
ghost use Rattle.sml_modules.specs.Graphs.{top_at, HasTop, Keeps};
ghost use Rattle.import_reading.specs.Restored.{AreRestored};
ghost use Rattle.unit_compiling.specs.Compiled.{defined_by, compiled_top, compiled_bare};
ghost use Rattle.unit_compiling.specs.Steps.{Defines};

use cm_base::{CompileInput, Compiled, Diag, Fault, Options, Text};
use env_pickle::pickle;
use import_reading::{RestoredInterfaces, read_imports};
use module_elab::elab_unit;
use sml_modules::{EnvGraph, TopId};
use sml_syntax::write_code;
use sml_trees::BareUnit;
use sml_types::TypeTable;

/// The greatest length of a code, in bytes.
const CODE_LIMIT: usize = 8_388_608;

/// What a unit defines over the basis that its options allow and what is given in front of it, as a top of the graph. The
/// unit is the graph's `home`.
fn define(
    graph: &mut EnvGraph,
    bare: &BareUnit,
    given: TopId,
    options: Options,
) -> Result<TopId, Fault>
    requires given { HasTop graph.old given }
    requires fresh { graph.old.made ≡ [] }
    ensures defines { Defines graph.new (defined_by graph.old.home options (top_at graph.old given) bare.now) result }
    ensures keeps { Keeps graph.old graph.new }
{
    let mut table = TypeTable::new(graph.alloc())?;
    elab_unit(graph, &mut table, bare, given, options)
}

/// The interface and the code of a unit that defines what stands at the top, or 12 where one of them has more bytes than
/// it may. They are copied, since a copy has no room to grow, and a build holds those of all its units.
fn write_compiled(
    graph: &EnvGraph,
    top: TopId,
    unit: &Text,
    bare: &BareUnit,
) -> Result<Compiled, Fault>
    requires { HasTop graph.now top }
    ensures { Gives result (compiled_top unit.now bare.now (top_at graph.now top)) }
{
    let interface = pickle(graph, top, unit)?;
    let alloc = graph.alloc();
    let code = write_code(alloc, bare)?;
    if code.as_bytes().len() > CODE_LIMIT {
        return Err(Fault::Diag(Diag::on_file(alloc, 12, unit)?));
    }
    Ok(Compiled {
        interface: interface.copy()?,
        code: code.copy()?,
    })
}

/// The interface and the code of a bare unit, in a graph that the unit has entered and in which these interfaces stand.
fn compile_in(
    graph: &mut EnvGraph,
    restored: &mut RestoredInterfaces,
    input: &CompileInput,
    bare: &BareUnit,
) -> Result<Compiled, Fault>
    requires home { graph.old.home ≡ input.now.unit }
    requires fresh { graph.old.made ≡ [] }
    requires restored { AreRestored graph.old.items restored.old }
    ensures restored { AreRestored graph.new.items restored.new }
    ensures gives { Gives result (compiled_bare input.now bare.now) }
{
    let given = read_imports(graph, restored, &input.unit, &input.imports)?;
    let top = define(graph, bare, given, input.options)?;
    write_compiled(graph, top, &input.unit, bare)
}

/// The interface and the code of a bare unit. The interfaces of its imports stand in the graph afterwards, and nothing of
/// the unit itself does; the table of its types is new.
pub(crate) fn compile_bare(
    graph: &mut EnvGraph,
    restored: &mut RestoredInterfaces,
    input: &CompileInput,
    bare: &BareUnit,
) -> Result<Compiled, Fault>
    requires { AreRestored graph.old.items restored.old }
    ensures restored { AreRestored graph.new.items restored.new }
    ensures gives { Gives result (compiled_bare input.now bare.now) }
{
    graph.enter(&input.unit)?;
    let result = compile_in(graph, restored, input, bare);
    graph.cut(restored.nodes);
    result
}
