//! Whether a variable stands in a type.

ghost use Rattle.std.specs.Prelude.{◌≡◌, ◌<◌, ◌++◌, ◌∷◌, [], length, IfOk};
ghost use Rattle.unification.specs.Types.{occurs};
ghost use Rattle.type_nodes.specs.Tables.{Has, whole};
ghost use Rattle.sml_types.specs.Occurring.{Met, Stepped, IsClear, lacks};
ghost use Rattle.sml_types.specs.Frames.{AreFrames, IsFlexible, any_symbol, nothing, seen};

use crate::frame::Frame;
use crate::notes::Notes;
use cm_base::{List, NoMemory};
use semantic_objects::TyId;
use std::alloc::Global;
use type_nodes::TypeBindings;

/// Looks at a node with a flexible variable. Its parts are to be gone through if they weren't yet.
fn meets_node(
    table: &TypeBindings,
    variable: usize,
    at: usize,
    clear: &Notes,
    frames: &mut List<Frame>,
) -> Result<bool, NoMemory>
    requires has { at < length table.now.nodes }
    requires clear { IsClear variable (seen table.now) clear.now }
    ensures { IfOk result (Met variable (seen table.now) (whole table.now (TyId.Made at)) frames.old frames.new) }
{
    table.is_kept();
    match clear.of(at) {
        Some(_) => Ok(false),
        None => {
            frames.add(Frame::of_node(at))?;
            Ok(false)
        }
    }
}

/// Looks at an id. What has to be gone through for it is added to the frames.
fn meets(
    table: &TypeBindings,
    variable: usize,
    id: TyId,
    clear: &Notes,
    frames: &mut List<Frame>,
) -> Result<bool, NoMemory>
    requires has { Has table.now id }
    requires flexible { IsFlexible table.now variable }
    requires clear { IsClear variable (seen table.now) clear.now }
    ensures { IfOk result (Met variable (seen table.now) (whole table.now id) frames.old frames.new) }
{
    table.is_kept();
    match table.head(id) {
        TyId::Variable(at) => Ok(variable == at),
        TyId::Made(at) => {
            if table.facts(at).flexible {
                Ok(meets_node(table, variable, at, clear, frames)?)
            } else {
                Ok(false)
            }
        }
    }
}

/// Looks at the next part of the last frame.
fn looks_on(
    table: &TypeBindings,
    variable: usize,
    frame: Frame,
    clear: &mut Notes,
    frames: &mut List<Frame>,
) -> Result<bool, NoMemory>
    requires flexible { IsFlexible table.now variable }
    requires clear { IsClear variable (seen table.now) clear.old }
    requires frames { AreFrames any_symbol (lacks variable) nothing (seen table.now) (frames.old ++ frame ∷ []) }
    ensures found { IfOk result (Stepped variable (seen table.now) (frames.old ++ frame ∷ []) frames.new) }
    ensures clear { IfOk result (λ found. IsClear variable (seen table.now) clear.new) }
{
    table.is_kept();
    match frame.part(table) {
        None => {
            clear.set(frame.node, frame.node)?;
            Ok(false)
        }
        Some(part) => {
            frames.add(frame.after()?)?;
            Ok(meets(table, variable, part, clear, frames)?)
        }
    }
}

/// Whether a variable for which nothing stands occurs in what an id stands for.
pub(crate) fn occurs(
    table: &TypeBindings,
    alloc: Global,
    variable: usize,
    id: TyId,
) -> Result<bool, NoMemory>
    requires has { Has table.now id }
    requires flexible { IsFlexible table.now variable }
    ensures { IfOk result (λ found. found ≡ occurs variable (whole table.now id)) }
{
    let mut frames = List::new(alloc);
    let mut clear = Notes::new(alloc);
    if meets(table, variable, id, &clear, &mut frames)? {
        return Ok(true);
    }
    while let Some(frame) = frames.pop() {
        if looks_on(table, variable, frame, &mut clear, &mut frames)? {
            return Ok(true);
        }
    }
    Ok(false)
}
