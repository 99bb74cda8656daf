//! The law of runs, as a call that does nothing: what a run makes is what its one tree makes.

ghost use Rattle.std.specs.Prelude.{List};
ghost use Rattle.bare_forms.specs.declared.run.Infix.{Infix};
ghost use Rattle.bare_forms.specs.Runs.{bind_all};
ghost use Rattle.bare_forms.specs.RunTrees.{AreStrengths, IsMadeByOneTree};

use crate::run::Operand;

/// A run whose operators have strengths from 0 to 9 has one tree in which each operator has the operands that its
/// strength and its side give it, and makes what that tree makes. (The Definition, 2.6.)
#[tactic(auto, using(crate::proofs::RunLaws::one_tree))]
pub fn run_has_one_tree<A: Operand>()
    ensures { (before : List (A × Infix)) (last : A) → AreStrengths before
        → IsMadeByOneTree A.joined before last (bind_all A.joined before last) }
{}
