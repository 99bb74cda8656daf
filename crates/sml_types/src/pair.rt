//! Going through the parts of two nodes at once, and nodes that were made one.

ghost use Rattle.std.specs.Prelude.{◌≡◌, ◌<◌, length, IfOk};
ghost use Rattle.type_nodes.specs.Tables.{state};
ghost use Rattle.sml_types.specs.Pairs.{after_pair, IsNextPair, AreOne, IsOne};

use crate::notes::Notes;
use cm_base::NoMemory;
use semantic_objects::TyId;
use type_nodes::TypeBindings;

/// Two nodes with one symbol whose parts are made one, the place of the next parts, and how deep these may go.
#[derive(Clone, Copy, Debug, PartialEq, Eq)]
pub(crate) struct Pair {
    pub(crate) left: usize,
    pub(crate) right: usize,
    pub(crate) next: usize,
    pub(crate) depth: usize,
}

impl Pair {
    /// Without the next parts.
    pub(crate) fn after(self) -> Result<Pair, NoMemory>
        ensures { IfOk result (λ pair. pair ≡ after_pair self) }
    {
        match self.next.checked_add(1) {
            Some(next) => Ok(Pair {
                left: self.left,
                right: self.right,
                next,
                depth: self.depth,
            }),
            None => Err(NoMemory),
        }
    }

    /// The next parts, if there are any.
    pub(crate) fn parts(self, table: &TypeBindings) -> Result<Option<(TyId, TyId)>, NoMemory>
        requires left { self.left < length table.now.nodes }
        requires right { self.right < length table.now.nodes }
        ensures { IfOk result (IsNextPair table.now self) }
    {
        table.is_kept();
        let left = table.node(self.left);
        let right = table.node(self.right);
        match (left.parts.get(self.next), right.parts.get(self.next)) {
            (Some(this), Some(that)) => Ok(Some((*this, *that))),
            (None, None) => Ok(None),
            _ => Err(NoMemory),
        }
    }
}

/// The node that stands for one, of those that were made one with it.
pub(crate) fn root(table: &TypeBindings, same: &Notes, node: usize) -> usize
    requires within { node < length table.now.nodes }
    requires one { AreOne table.now (state table.now) same.now }
    ensures within { result < length table.now.nodes }
    ensures one { IsOne table.now (state table.now) result node }
{
    let mut at = node;
    while let Some(further) = same.of(at) {
        at = further;
    }
    at
}

/// Notes that two nodes were made one.
pub(crate) fn join(
    table: &TypeBindings,
    same: &mut Notes,
    left: usize,
    right: usize,
) -> Result<(), NoMemory>
    requires left { left < length table.now.nodes }
    requires right { right < length table.now.nodes }
    requires one { AreOne table.now (state table.now) same.old }
    requires made { IsOne table.now (state table.now) left right }
    ensures { IfOk result (λ done. AreOne table.now (state table.now) same.new) }
{
    let left = root(table, same, left);
    let right = root(table, same, right);
    if left < right {
        same.set(right, left)?;
    } else if right < left {
        same.set(left, right)?;
    }
    Ok(())
}
