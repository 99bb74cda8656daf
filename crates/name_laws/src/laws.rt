//! The law, so that crates above have it from a call.

ghost use Rattle.name_laws.specs.Promises.{NamesFit};

/// Each name of the bare unit of a source has 1 to 255 bytes from 33 to 126.
pub fn names_fit()
    ensures { NamesFit }
{}
