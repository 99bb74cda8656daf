//! The interface of a unit that stands in a table of nodes.

ghost use Rattle.std.specs.Prelude.{◌≡◌, ◌<◌, length, IfOk, ◌++◌};
ghost use Rattle.semantic_objects.specs.Environments.{Top};
ghost use Rattle.interface_format.specs.Trees.{top_node};
ghost use Rattle.interface_format.specs.Interfaces.{mark};
ghost use Rattle.interface_nodes.specs.Fields.{node_at};
ghost use Rattle.sml_modules.specs.Graphs.{top_at, HasTop};
ghost use Rattle.env_pickle.specs.Writing.{WritesInterface};

use cm_base::{Diag, Fault, NoMemory, Text};
use environment_nodes::add_top;
use node_bytes::WriteFault;
use node_tables::NodeTable;
use sml_modules::{EnvGraph, TopId};
use std::alloc::Global;

/// How many bytes an interface may have.
pub const INTERFACE_LIMIT: u32 = 1_048_576;

/// The mark and bytes behind it.
fn marked(alloc: Global, bytes: &Text) -> Result<Text, NoMemory>
    ensures { IfOk result (λ text. text ≡ mark ++ bytes.now) }
{
    let mut all = Vec::from_slice(alloc, b"CMI1")?;
    all.extend_from_slice(bytes.as_bytes())?;
    Ok(Text::from_vec(all))
}

/// The interface of the unit `home` that stands at a place: 12 at the unit where it has more bytes than it may.
pub fn write_interface(
    alloc: Global,
    table: &NodeTable,
    root: usize,
    home: &Text,
) -> Result<Text, Fault>
    requires { root < length table.now }
    ensures { (top : Top) → node_at table.now root ≡ top_node home.now top → WritesInterface home.now top result }
{
    match table.write(alloc, root, 12, INTERFACE_LIMIT - 4) {
        Ok(bytes) => Ok(marked(alloc, &bytes)?),
        Err(WriteFault::TooLong) => Err(Fault::Diag(Diag::on_file(alloc, 12, home)?)),
        Err(WriteFault::NoMemory) => Err(Fault::NoMemory),
    }
}

/// The interface of the unit `home` that defines what stands at the top, with the numbers of names and variables as
/// they stand: 12 at the unit where it has more bytes than it may.
pub fn write_top(graph: &EnvGraph, top: TopId, home: &Text) -> Result<Text, Fault>
    requires { HasTop graph.now top }
    ensures { WritesInterface home.now (top_at graph.now top) result }
{
    let alloc = graph.alloc();
    let mut table = NodeTable::new(alloc);
    let root = add_top(graph, &mut table, home, top)?;
    write_interface(alloc, &table, root, home)
}
