//! The interface of what a unit defines, whatever numbers its names and variables have.

ghost use Rattle.std.specs.Prelude.{IfOk};
ghost use Rattle.sml_modules.specs.Graphs.{top_at, HasTop};
ghost use Rattle.realisation.specs.Canonical.{canonical};
ghost use Rattle.interface_format.specs.Interfaces.{IsInterface};
ghost use Rattle.canonical_interfaces.specs.Fair.{IsFairTop};
ghost use Rattle.env_pickle.specs.Writing.{WritesInterface};

use crate::writing::write_top;
use canonical_walks::canon;
use cm_base::{Fault, Text};
use graph_copies::copy_top;
use sml_modules::{EnvGraph, TopId};

/// The interface of the unit `home` that defines what stands at the top: that of its canonical form, in which names and
/// variables are numbered by first occurrence. It is refused with 12 at the unit where it has more bytes than it may.
pub fn pickle(graph: &EnvGraph, top: TopId, home: &Text) -> Result<Text, Fault>
    requires { HasTop graph.now top }
    ensures written { WritesInterface home.now (canonical home.now (top_at graph.now top)) result }

    // By the rules of interfaces it is one, where what they ask of the rest holds of the top.
    ensures interface { IsFairTop home.now (top_at graph.now top)
        → IfOk result (λ text. IsInterface home.now text (canonical home.now (top_at graph.now top))) }
{
    let mut copy = EnvGraph::new(graph.alloc())?;
    copy.enter(home)?;
    let copied = copy_top(graph, &mut copy, top)?;
    let made = canon(&mut copy, copied)?;
    write_top(&copy, made, home)
}
