//! The law, so that crates above have it from a call.

ghost use Rattle.recursion_laws.specs.Promises.{RecsAreFunctions};

/// In a text that is a unit the right side of each `rec` binding is a function, and each function takes an argument.
pub fn recs_are_functions()
    ensures { RecsAreFunctions }
{}
