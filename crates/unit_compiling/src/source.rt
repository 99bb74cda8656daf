//! A source is read and made bare.

ghost use Rattle.cm_base.specs.Calls.{Gives};
ghost use Rattle.unit_compiling.specs.Compiled.{bare_of_source};

use cm_base::{Fault, Text};
use derived_forms::to_bare;
use module_parser::parse_unit;
use sml_trees::BareUnit;
use std::alloc::Global;

/// The bare unit of a source, or its first diagnostic: that of the parser, which is 20, 21 or 39, or 12 for a source of
/// more than 1,048,576 bytes, a name of more than 255 or too many levels; and else that of the bare tree, which is 12 or
/// 40. Diagnostics name the unit as their file.
#[tactic(auto, using(crate::proofs::Sources::parsed_then, crate::proofs::Sources::refused_then))]
pub fn bare_of_source(alloc: Global, unit: &Text, source: &Text) -> Result<BareUnit, Fault>
    ensures { Gives result (bare_of_source unit.now source.now) }
{
    let full = parse_unit(alloc, unit, source)?;
    to_bare(alloc, &full)
}
