//! An interface as a top of a graph, and what stands there under the imported name.

ghost use Rattle.std.specs.Prelude.{◌≡◌, IfOk};
ghost use Rattle.sml_modules.specs.Adding.{Extends};
ghost use Rattle.sml_modules.specs.Nodes.{AreTopTables, top_of_tables};
ghost use Rattle.import_reading.specs.Placed.{FindsWanted};
ghost use Rattle.import_reading.specs.Reading.{RestoresTop};

use cm_base::{Given, ModName, Namespace, NoMemory};
use env_parts::TopTables;
use interface_reading::RestoreFault;
use interface_restoring::restore;
use sml_modules::{EnvGraph, EnvId, TopId};

/// The top that an import's interface is one of, if it is an interface of its provider.
pub(crate) fn restored_top(graph: &mut EnvGraph, given: &Given) -> Result<Option<TopId>, NoMemory>
    ensures extends { Extends graph.old graph.new }
    ensures is { IfOk result (RestoresTop given.now.import.provider given.now.interface graph.new) }
{
    match restore(graph, &given.import.provider, given.interface.as_bytes()) {
        Ok(top) => Ok(Some(top)),
        Err(RestoreFault::BadInterface) => Ok(None),
        Err(RestoreFault::NoMemory) => Err(NoMemory),
    }
}

/// The place of what a top of these tables has under the wanted name.
pub(crate) fn place_of(
    graph: &EnvGraph,
    tables: &TopTables,
    wanted: &ModName,
) -> Result<Option<usize>, NoMemory>
    requires { AreTopTables graph.now.items tables.now }
    ensures { IfOk result (FindsWanted graph.now.items wanted.now (top_of_tables graph.now.items tables.now)) }
{
    match wanted.space {
        Namespace::Structure => {
            let env = graph.env_tables(EnvId { place: tables.env })?;
            Ok(env.structures.get(&wanted.name))
        }
        Namespace::Signature => Ok(tables.signatures.get(&wanted.name)),
        Namespace::Functor => Ok(tables.functors.get(&wanted.name)),
        Namespace::Funsig => Ok(tables.funsigs.get(&wanted.name)),
    }
}
