//! The laws, so that crates above have them from a call.

ghost use Rattle.bare_functions.specs.Promises.{SourcesBindFunctions, SourcesHaveDerivations};

/// What a text that is a unit becomes without derived forms has functions behind each `rec`.
pub fn sources_bind_functions()
    ensures { SourcesBindFunctions }
{}

/// What inference gives of a text that is a unit the rules give.
pub fn sources_have_derivations()
    ensures { SourcesHaveDerivations }
{}
