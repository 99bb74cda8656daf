//! A text behind a head that is the same for all.

ghost use Rattle.std.specs.Prelude.{◌≡◌, ◌≤◌, ◌++◌, IfOk, codes, length};

use cm_base::{NoMemory, Text, Tool, ToolFault};
use cm_bytes::Writer;
use std::alloc::Global;

/// The tool of class `prelude`: its head and then the input.
#[derive(Debug, Drop)]
pub struct Prelude {
    class: Text,
    head: Text,
    ran: u64,
    ghost named: { class ≡ codes "prelude" },
    ghost short: { length head ≤ 1048576 },
}

impl Prelude {
    /// The tool with this head.
    pub fn new(alloc: Global, head: Text) -> Result<Prelude, NoMemory>
        requires { length head ≤ 1048576 }
        ensures { IfOk result (λ tool. (tool.class ≡ codes "prelude") × (tool.head ≡ head) × (tool.ran ≡ 0)) }
    {
        Ok(Prelude {
            class: Text::from_bytes(alloc, b"prelude")?,
            head,
            ran: 0,
        })
    }
}

// One text and then another.
fn joined(alloc: Global, head: &Text, input: &Text) -> Result<Text, NoMemory>
    ensures { IfOk result (λ text. text ≡ head.now ++ input.now) }
{
    let mut out = Writer::new(alloc);
    out.raw(head.as_bytes())?;
    out.raw(input.as_bytes())?;
    Ok(out.finish())
}

impl Tool for Prelude {
    ghost use Rattle.bundled_tools.specs.Rules.{prelude_rule};

    ghost class = { λ tool. tool.class };

    ghost rule = { λ tool. prelude_rule tool.head };

    ghost ran = { λ tool. tool.ran };

    ghost faults = { λ tool. 0 };

    fn class(&self) -> &Text {
        &self.class
    }

    #[tactic(auto, using(crate::proofs::Rules::prelude_rule_length), unfolding(crate::specs::Rules::prelude_rule))]
    fn rule(&self, alloc: Global) -> Result<Text, NoMemory> {
        let mut out = Writer::new(alloc);
        out.u8(2)?;
        out.text(&self.head)?;
        Ok(out.finish())
    }

    fn ran(&self) -> u64 {
        self.ran
    }

    #[tactic(auto, using(crate::proofs::Rules::prelude_derives))]
    fn make(&mut self, alloc: Global, unit: &Text, input: &Text) -> Result<Text, ToolFault> {
        self.ran = self.ran.saturating_add(1);
        Ok(joined(alloc, &self.head, input)?)
    }
}
