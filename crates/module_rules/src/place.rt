//! Places of the unit that is elaborated.

ghost use Rattle.std.specs.Prelude.{◌≡◌, IfOk};
ghost use Rattle.structure_matching.specs.Searching.{at_of};

use cm_base::{NoMemory, Place};
use sml_modules::EnvGraph;
use sml_trees::At;

/// A place of the unit that the graph is in.
pub(crate) fn place_of(g: &EnvGraph, at: At) -> Result<Place, NoMemory>
    ensures file { IfOk result (λ place. place.file ≡ g.now.home) }
    ensures at { IfOk result (λ place. at_of place ≡ at) }
{
    Ok(Place {
        file: g.home()?,
        line: at.line,
        col: at.col,
    })
}
