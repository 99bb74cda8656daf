//! Where each case begins.

ghost use Rattle.std.specs.Prelude.{IfOk};
ghost use Rattle.sml_modules.specs.Graphs.{HasEnv};

use asked_phrases::UNIT;
use cm_base::{NoMemory, Options, Text};
use initial_basis::basis;
use sml_modules::{EnvGraph, EnvId};
use std::alloc::Global;

/// With the built-in structures.
const OPTIONS: Options = Options {
    nobasis: false,
    opaque: false,
};

/// The environment of the initial basis, in a new graph that makes names for the unit of the texts.
pub fn basis_env(alloc: Global, g: &mut EnvGraph) -> Result<EnvId, NoMemory>
    ensures { IfOk result (HasEnv g.new) }
{
    g.enter(&Text::from_bytes(alloc, UNIT)?)?;
    let top = basis(alloc, g, OPTIONS)?;
    g.env_of(top)
}
