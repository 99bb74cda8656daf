//! The law, so that crates above have it from a call.

ghost use Rattle.constant_laws.specs.Promises.{ConstantsFit};

/// Each integer of the bare unit of a source fits in 64 bits with a sign, and each character in a byte.
pub fn constants_fit()
    ensures { ConstantsFit }
{}
