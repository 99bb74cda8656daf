//! The law of the compiler's two definitions, so that crates above have it from a call.

ghost use Rattle.sml_compiler.specs.Laws.{CompilesWhatHasASkeleton};

/// A unit that is compiled has a skeleton, and a source without one is refused with the same diagnostic.
#[tactic(auto, using(crate::proofs::Skeletons::compiles))]
pub fn what_is_compiled_has_a_skeleton()
    ensures { CompilesWhatHasASkeleton }
{}
