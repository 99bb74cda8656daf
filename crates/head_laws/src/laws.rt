//! The law, so that crates above have it from a call.

ghost use Rattle.head_laws.specs.Promises.{HeadsAreOfTheForms};

/// What is read as a head before a `:` or a `=` is of one of the three forms, and all that is of one is read so.
pub fn heads_are_of_the_forms()
    ensures { HeadsAreOfTheForms }
{}
