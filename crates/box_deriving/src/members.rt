//! The source of a member of a tool's class, as a step of a loading.

ghost use Rattle.std.specs.Prelude.{◌≡◌, Err, Some, ℕ, List, map};
ghost use Rattle.cm_base.specs.Causes.{HasCause};
ghost use Rattle.tool_deriving.specs.Deriving.{tool_state, tool_use};
ghost use Rattle.tool_deriving.specs.Toolboxes.{rules_of};
ghost use Rattle.member_deriving.specs.Classes.{rule_named, IsToolOf};
ghost use Rattle.member_deriving.specs.Sources.{source_by, texts_over_stores};
ghost use Rattle.member_deriving.specs.Uses.{Work};
ghost use Rattle.box_deriving.specs.Boxes.{InStep, Origin, StepsOn, Tends, world_of};

use cm_base::{Folder, Text, Tool};
use member_deriving::{MemberFault, derive_source};
use std::alloc::Global;
use tool_deriving::Toolbox;

/// The source of a unit whose file, of this input, is a member of a class that the tool at a place has. From any point of
/// a loading it is the definition's next step: its source or its refusal, and the folder and the box as that step leaves
/// them; after a fault they stand within the step.
pub fn derive_member<F: Folder, T: Tool>(
    alloc: Global,
    folder: &mut F,
    tools: &mut Toolbox<T>,
    at: u32,
    class: &Text,
    unit: &Text,
    input: &Text,
) -> Result<Text, MemberFault>
    requires { IsToolOf T.class T.rule class.now tools.old at }
    ensures folder { HasCause (F.faults folder.old) (F.faults folder.new) (result ≡ Err MemberFault.Folder) }
    ensures tends { Tends result
        (map (λ tool. tool_state (T.class tool) (T.rule tool) (T.ran tool) (T.faults tool)) tools.old)
        (map (λ tool. tool_state (T.class tool) (T.rule tool) (T.ran tool) (T.faults tool)) tools.new) }
    ensures steps { (origin : Origin) (work : Work) (rule : List ℕ)
        → rule_named (rules_of T.class T.rule tools.old) class.now ≡ Some rule
        → InStep origin work (world_of (F.holds folder.old)
        (map (λ tool. tool_state (T.class tool) (T.rule tool) (T.ran tool) (T.faults tool)) tools.old))
        → StepsOn origin work
        (source_by texts_over_stores (tool_use class.now rule unit.now input.now) work) result
        (world_of (F.holds folder.new)
        (map (λ tool. tool_state (T.class tool) (T.rule tool) (T.ran tool) (T.faults tool)) tools.new)) }
{
    derive_source(alloc, folder, tools, at, unit, input)
}
