//! The tools that classes of members have.

ghost use Rattle.std.specs.Prelude.{◌≡◌, None, MatchOption};
ghost use Rattle.tool_deriving.specs.Toolboxes.{is_built_in, rules_of};
ghost use Rattle.member_deriving.specs.Classes.{rule_named, IsToolOf};

use cm_base::{Text, Tool};
use tool_deriving::Toolbox;

// Whether a class is that of sources or of descriptions.
#[tactic(auto, unfolding(tool_deriving::specs::Toolboxes::is_built_in))]
fn is_built_in(class: &[u8]) -> bool
    ensures { result ≡ is_built_in class.now }
{
    class == b"sml".as_slice() || class == b"cm".as_slice()
}

/// The place of the tool that members of a class use. `None` for `sml` and `cm`, whatever the box has, and where no tool
/// has the class.
pub fn find_tool<T: Tool>(tools: &Toolbox<T>, class: &Text) -> Option<u32>
    ensures { MatchOption result (rule_named (rules_of T.class T.rule tools.now) class.now ≡ None)
        (IsToolOf T.class T.rule class.now tools.now) }
{
    if is_built_in(class.as_bytes()) {
        return None;
    }
    tools.find(class)
}
