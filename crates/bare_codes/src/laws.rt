//! The law, so that crates above have it from a call.

ghost use Rattle.bare_codes.specs.Promises.{BareUnitsHaveCodes};

/// A bare unit that a unit becomes has a code, where its constants fit and its bytes can be counted in four: it has no
/// more levels than a code has, and its bodies are sequences.
pub fn bare_units_have_codes()
    ensures { BareUnitsHaveCodes }
{}
