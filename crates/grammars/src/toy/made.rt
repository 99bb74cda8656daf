//! A tree with its height.

ghost use Rattle.std.specs.Prelude.{◌≡◌, ◌+◌, ◌<◌, ◌^◌, MatchResult};
ghost use Rattle.grammars.specs.Grammar.{above};
ghost use Rattle.grammars.specs.Shape.{Shape, shape, levels_of};
ghost use Rattle.grammars.specs.Sums.{leaf, over};

use super::fault::Fault;
use super::tree::{Operator, Tree};
use std::alloc::Global;

/// A tree, and how many levels it nests.
#[derive(Debug, Drop)]
pub struct Made {
    pub tree: Tree,
    pub height: u32,
    ghost exact: { height ≡ levels_of (shape tree) },
}

impl Made {
    ghost use Rattle.grammars.specs.Seen.{seen};

    /// A number by itself.
    pub fn number(number: u32) -> Made
        ensures { seen result ≡ leaf (Shape.number number) }
    {
        Made {
            tree: Tree::Number(number),
            height: 0,
        }
    }

    /// A name by itself.
    pub fn name(name: char) -> Made
        ensures { seen result ≡ leaf (Shape.name name) }
    {
        Made {
            tree: Tree::Name(name),
            height: 0,
        }
    }

    /// What stands behind a minus.
    pub fn negated(self, alloc: Global) -> Result<Made, Fault>
        requires { self.height + 1 < 2 ^ 32 }
        ensures { MatchResult result
            (λ made. seen made ≡ over Shape.negated (seen self))
            (λ fault. fault ≡ Fault.NoMemory) }
    {
        let Made { tree, height } = self;
        Ok(Made {
            tree: Tree::Negated(Box::new(alloc, tree)?),
            height: height + 1,
        })
    }

    /// What stands in brackets.
    pub fn grouped(self, alloc: Global) -> Result<Made, Fault>
        requires { self.height + 1 < 2 ^ 32 }
        ensures { MatchResult result
            (λ made. seen made ≡ over Shape.grouped (seen self))
            (λ fault. fault ≡ Fault.NoMemory) }
    {
        let Made { tree, height } = self;
        Ok(Made {
            tree: Tree::Grouped(Box::new(alloc, tree)?),
            height: height + 1,
        })
    }

    /// This and another with an operator between them.
    pub fn joined(self, alloc: Global, operator: Operator, right: Made) -> Result<Made, Fault>
        requires left { self.height + 1 < 2 ^ 32 }
        requires right { right.height + 1 < 2 ^ 32 }
        ensures { MatchResult result
            (λ made. seen made ≡ above (Shape.joined operator) (seen self) (seen right))
            (λ fault. fault ≡ Fault.NoMemory) }
    {
        let Made { tree, height } = self;
        let height = height.max(right.height) + 1;
        let left = Box::new(alloc, tree)?;
        let right = Box::new(alloc, right.tree)?;
        Ok(Made {
            tree: Tree::Joined(operator, left, right),
            height,
        })
    }
}
