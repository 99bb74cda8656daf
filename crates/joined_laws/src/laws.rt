//! The laws, so that crates above have them from a call.

ghost use Rattle.joined_laws.specs.Promises.{SignaturesAreOfTheForms, BindingsAreJoined, IncludesAreOfTheForms};

/// What is read as a signature that stands alone is of one of the three forms, and all that is of one is read so.
pub fn signatures_are_of_the_forms()
    ensures { SignaturesAreOfTheForms }
{}

/// What is read as bindings of signatures is bindings joined by `and`, and all that are such are read so.
pub fn bindings_are_joined()
    ensures { BindingsAreJoined }
{}

/// What is read behind `include` is names of signatures or a signature, and all that is one of these is read so.
pub fn includes_are_of_the_forms()
    ensures { IncludesAreOfTheForms }
{}
