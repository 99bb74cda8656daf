//! The law, so that crates above have it from a call.

ghost use Rattle.elaboration_laws.specs.Promises.{ExpressionsHaveDerivations};

/// The rules give what inference gives of each expression, match and declaration whose `rec` bindings bind functions, as
/// those of every source do.
#[tactic(auto, using(crate::proofs::Promised::expressions_have_derivations))]
pub fn expressions_have_derivations()
    ensures { ExpressionsHaveDerivations }
{}
