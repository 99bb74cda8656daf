//! The law, so that crates above have it from a call.

ghost use Rattle.core_names.specs.Promises.{TypesFit};

/// The names of each type that is read have 1 to 255 bytes from 33 to 126.
pub fn types_fit()
    ensures { TypesFit }
{}
