//! The source of one member of a tool's class.

ghost use Rattle.std.specs.Prelude.{◌≡◌, ◌<◌, ◌≤◌, Err, Ok, length};
ghost use Rattle.cm_base.specs.Calls.{Gives};
ghost use Rattle.cm_base.specs.Causes.{HasCause};
ghost use Rattle.tool_deriving.specs.Deriving.{tool_state};
ghost use Rattle.tool_deriving.specs.Toolboxes.{OfOne};
ghost use Rattle.member_deriving.specs.Sources.{within_source, SourcesBy};

use crate::fault::MemberFault;
use cm_base::{Diag, Fault, Folder, Text, Tool};
use std::alloc::Global;
use tool_deriving::{Toolbox, derive};

/// The greatest source and the greatest input of a tool, in bytes.
const SOURCE: u64 = 1_048_576;

// 12 on a unit whose text is too large.
fn within_source(alloc: Global, unit: &Text, text: &Text) -> Result<(), Fault>
    ensures gives { Gives result (within_source unit.now text.now) }
    ensures small { result ≡ Ok tt → length text.now ≤ 1048576 }
{
    if text.as_bytes().len() as u64 > SOURCE {
        return Err(Fault::Diag(Diag::on_file(alloc, 12, unit)?));
    }
    Ok(())
}

/// The source of a unit whose file, of this input, is a member of a tool's class. `at` is the place of the tool. An
/// input of more than 1,048,576 bytes is 12 at the unit, and the tool isn't used; the text of a use that has more is 12
/// there too, and the use stands. A name of more than 1,048,576 bytes counts as want of memory.
pub fn derive_source<F: Folder, T: Tool>(
    alloc: Global,
    folder: &mut F,
    tools: &mut Toolbox<T>,
    at: u32,
    unit: &Text,
    input: &Text,
) -> Result<Text, MemberFault>
    requires { at < length tools.old }
    ensures folder { HasCause (F.faults folder.old) (F.faults folder.new) (result ≡ Err MemberFault.Folder) }
    ensures tool { OfOne at tools.old tools.new (λ old new.
        SourcesBy (tool_state (T.class old) (T.rule old) (T.ran old) (T.faults old))
        (tool_state (T.class new) (T.rule new) (T.ran new) (T.faults new)) unit.now input.now result
        (F.holds folder.old) (F.holds folder.new)) }
{
    within_source(alloc, unit, input)?;
    if unit.as_bytes().len() as u64 > SOURCE {
        return Err(MemberFault::NoMemory);
    }
    let source = derive(alloc, folder, tools, at, unit, input)?;
    within_source(alloc, unit, &source)?;
    Ok(source)
}
