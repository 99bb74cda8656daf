//! Laws of scopes, for the proofs of callers.

ghost use Rattle.core_scopes.specs.Promises.{StaysInScope, FrontsGoOn};

/// A scope stays one of a graph that grows, and what is in scope stays what it was.
pub fn scopes_stay<V>()
    ensures { StaysInScope V }
{}

/// Nothing was taken back since a scope if nothing was since a later one, and nothing between the two.
pub fn fronts_go_on<V>()
    ensures { FrontsGoOn V }
{}
