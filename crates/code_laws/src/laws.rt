//! The law, so that crates above have it from a call.

ghost use Rattle.code_laws.specs.Promises.{LowUnitsHaveCodes};

/// A plain bare unit of at most 1,024 levels whose bytes can be counted in four has a code: without its places it is the
/// one that its bytes are read as.
pub fn low_units_have_codes()
    ensures { LowUnitsHaveCodes }
{}
