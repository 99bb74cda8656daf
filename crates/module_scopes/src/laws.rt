//! Laws of what is in scope, for the proofs of callers.

ghost use Rattle.module_scopes.specs.Stays.{TopsStay};

/// What is in scope stays in a graph that grows, and stays what it was.
pub fn tops_stay()
    ensures { TopsStay }
{}
