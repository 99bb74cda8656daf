//! A compiler: the manager builds over any one that meets this trait.

ghost use Rattle.std.specs.Prelude.{◌≡◌, ℕ, List};
ghost use Rattle.cm_base.specs.Calls.{Answers, Grows, GivesSmall};
ghost use Rattle.cm_base.specs.Definitions.{Definitions};

use crate::fault::CompileFault;
use crate::record::{CompileInput, Compiled, Skeleton};
use crate::text::Text;
use std::alloc::Global;

/// A compiler answers what its definitions say, or that it wants memory. They belong to its type, so
/// that no call changes them. `asked` and `asked_skeletons` list the units of its calls, in order.
pub trait Compiler {
    ghost defines: { Definitions };

    ghost asked: { Self → List (List ℕ) };

    ghost asked_skeletons: { Self → List (List ℕ) };

    /// The module names that a source defines and uses, or its first diagnostic.
    fn skeleton(
        &mut self,
        alloc: Global,
        unit: &Text,
        source: &Text,
    ) -> Result<Skeleton, CompileFault>
        ensures answer { Answers result (defines.skel unit.now source.now) }
        ensures small { GivesSmall result }
        ensures grows { Grows result (asked_skeletons self.old) (asked_skeletons self.new) unit.now }
        ensures same { asked self.new ≡ asked self.old };

    /// The interface and the code of a unit, or its first diagnostic.
    fn compile(&mut self, alloc: Global, input: &CompileInput) -> Result<Compiled, CompileFault>
        ensures answer { Answers result (defines.compiled input.now) }
        ensures grows { Grows result (asked self.old) (asked self.new) input.now.unit }
        ensures same { asked_skeletons self.new ≡ asked_skeletons self.old };
}
