//! A tool: it makes an SML source of a member of its class.

ghost use Rattle.std.specs.Prelude.{◌≡◌, ◌≤◌, ℕ, List, Err, IfOk, length};
ghost use Rattle.cm_base.specs.Causes.{HasCause};
ghost use Rattle.cm_base.specs.Calls.{Makes};
ghost use Rattle.cm_base.specs.Derived.{derived_text};

use crate::fault::{NoMemory, ToolFault};
use crate::text::Text;
use std::alloc::Global;

/// A tool has a class and a rule, of at most 1,048,581 bytes each, that stay what they are. `ran` is the number
/// of its runs, at most 2^64 - 1; `faults` rises where a run fails, and doesn't fall.
pub trait Tool: Drop {
    ghost class: { Self → List ℕ };

    ghost rule: { Self → List ℕ };

    ghost ran: { Self → ℕ };

    ghost faults: { Self → ℕ };

    /// The class of the members that it is for.
    fn class(&self) -> &Text
        ensures value { result.now ≡ class self.now }
        ensures most { length result.now ≤ 1048581 };

    /// The rule that, with a unit's name and an input, determines the text that it makes.
    fn rule(&self, alloc: Global) -> Result<Text, NoMemory>
        ensures value { IfOk result (λ text. text ≡ rule self.now) }
        ensures most { IfOk result (λ text. length text ≤ 1048581) };

    /// How often it ran.
    fn ran(&self) -> u64
        ensures { result ≡ ran self.now };

    /// Makes the source of a unit from its input. A failed run counts as a run.
    fn make(&mut self, alloc: Global, unit: &Text, input: &Text) -> Result<Text, ToolFault>
        ensures cause { HasCause (faults self.old) (faults self.new) (result ≡ Err ToolFault.Failed) }
        ensures made { Makes result (derived_text (rule self.old) unit.now input.now) (ran self.old) (ran self.new) }
        ensures same_class { class self.new ≡ class self.old }
        ensures same_rule { rule self.new ≡ rule self.old };
}
