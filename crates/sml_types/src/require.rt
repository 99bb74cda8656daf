//! That a type admits equality.

ghost use Rattle.std.specs.Prelude.{◌≡◌, ◌<◌, ◌++◌, ◌∷◌, [], length};
ghost use Rattle.unification.specs.Types.{require};
ghost use Rattle.type_nodes.specs.Tables.{Has, IsEnd, state, whole};
ghost use Rattle.sml_types.specs.Frames.{AreFrames, nothing, seen};
ghost use Rattle.sml_types.specs.Unifying.{NamesOwn};
ghost use Rattle.sml_types.specs.Requiring.{MarksMore, admitted, by_parts, IsAdmitted, Demanded, RequiredOn, Required};

use crate::fault::TypeFault;
use crate::frame::Frame;
use crate::notes::Notes;
use cm_base::{List, NoMemory};
use semantic_objects::TyId;
use std::alloc::Global;
use type_nodes::TypeBindings;
use unification::{Equality, symbol_equality};

/// Demands equality of a variable for which nothing stands.
fn demand_variable(
    table: &mut TypeBindings,
    at: usize,
    frames: &mut List<Frame>,
) -> Result<(), TypeFault>
    requires end { IsEnd table.old (TyId.Variable at) }
    requires has { Has table.old (TyId.Variable at) }
    ensures only { MarksMore table.old table.new }
    ensures answer { Demanded table.old table.new (whole table.old (TyId.Variable at)) frames.old frames.new result }
    ensures named { NamesOwn table.old result }
{
    table.is_kept();
    if table.is_marked(at) {
        return Ok(());
    }
    if table.birth(at).rigid {
        return Err(TypeFault::NotEquality(TyId::Variable(at)));
    }
    table.set_mark(at)?;
    Ok(())
}

/// Demands equality of a node with a flexible variable. Its parts are to be gone through where the answer hangs on them.
fn demand_parts(
    table: &TypeBindings,
    at: usize,
    done: &Notes,
    frames: &mut List<Frame>,
) -> Result<(), TypeFault>
    requires has { at < length table.now.nodes }
    requires done { IsAdmitted (state table.now).marks (seen table.now) done.now }
    ensures answer { Demanded table.now table.now (whole table.now (TyId.Made at)) frames.old frames.new result }
    ensures named { NamesOwn table.now result }
{
    table.is_kept();
    match done.of(at) {
        Some(_) => Ok(()),
        None => match symbol_equality(&table.node(at).symbol) {
            Equality::Never => Err(TypeFault::NotEquality(TyId::Made(at))),
            Equality::Always => Ok(()),
            Equality::ByParts => {
                frames.add(Frame::of_node(at))?;
                Ok(())
            }
        },
    }
}

/// Demands equality of a node.
fn demand_node(
    table: &TypeBindings,
    at: usize,
    done: &Notes,
    frames: &mut List<Frame>,
) -> Result<(), TypeFault>
    requires has { at < length table.now.nodes }
    requires done { IsAdmitted (state table.now).marks (seen table.now) done.now }
    ensures answer { Demanded table.now table.now (whole table.now (TyId.Made at)) frames.old frames.new result }
    ensures named { NamesOwn table.now result }
{
    table.is_kept();
    let facts = table.facts(at);
    match (facts.flexible, facts.equality) {
        (true, _) => demand_parts(table, at, done, frames),
        (false, true) => Ok(()),
        (false, false) => Err(TypeFault::NotEquality(TyId::Made(at))),
    }
}

/// Demands equality of what an id stands for. What has to be gone through for it is added to the frames.
fn demand(
    table: &mut TypeBindings,
    id: TyId,
    done: &Notes,
    frames: &mut List<Frame>,
) -> Result<(), TypeFault>
    requires has { Has table.old id }
    requires done { IsAdmitted (state table.old).marks (seen table.old) done.now }
    ensures only { MarksMore table.old table.new }
    ensures answer { Demanded table.old table.new (whole table.old id) frames.old frames.new result }
    ensures named { NamesOwn table.old result }
{
    table.is_kept();
    match table.head(id) {
        TyId::Variable(at) => demand_variable(table, at, frames),
        TyId::Made(at) => demand_node(table, at, done, frames),
    }
}

/// Demands equality of the next part of the last frame.
fn demand_next(
    table: &mut TypeBindings,
    frame: Frame,
    done: &mut Notes,
    frames: &mut List<Frame>,
) -> Result<(), TypeFault>
    requires done { IsAdmitted (state table.old).marks (seen table.old) done.old }
    requires frames { AreFrames by_parts (admitted (state table.old).marks) nothing (seen table.old) (frames.old ++ frame ∷ []) }
    ensures only { MarksMore table.old table.new }
    ensures answer { RequiredOn table.old table.new (frames.old ++ frame ∷ []) frames.new done.new result }
    ensures named { NamesOwn table.old result }
{
    table.is_kept();
    match frame.part(table) {
        None => {
            done.set(frame.node, frame.node)?;
            Ok(())
        }
        Some(part) => {
            frames.add(frame.after()?)?;
            demand(table, part, done, frames)
        }
    }
}

/// Makes what an id stands for an equality type, by marks on its variables.
pub(crate) fn require(table: &mut TypeBindings, alloc: Global, id: TyId) -> Result<(), TypeFault>
    requires { Has table.old id }
    ensures only { MarksMore table.old table.new }
    ensures answer { Required (require (state table.old).rigid (whole table.old id) (state table.old).marks) result (state table.new).marks }
    ensures named { NamesOwn table.old result }
{
    table.is_kept();
    let mut frames = List::new(alloc);
    let mut done = Notes::new(alloc);
    demand(table, id, &done, &mut frames)?;
    table.is_kept();
    while let Some(frame) = frames.pop() {
        table.is_kept();
        demand_next(table, frame, &mut done, &mut frames)?;
        table.is_kept();
    }
    Ok(())
}
