//! The law, so that crates above have it from a call.

ghost use Rattle.unit_compiling.specs.Promises.{CompiledUnitsAreSmall};

/// Interface and code of a unit are within their limits.
#[tactic(auto, using(crate::proofs::Small::are_small))]
pub fn compiled_units_are_small()
    ensures { CompiledUnitsAreSmall }
{}
