//! What is known of a type as it was made.

ghost use Rattle.std.specs.Prelude.{◌≡◌};
ghost use Rattle.type_nodes.specs.Facts.{joined, over_symbol, variable_facts, no_facts};

use crate::node::Birth;
use semantic_objects::Symbol;
use unification::{Equality, symbol_equality};

/// How many nodes are counted. A type with so many is large, whatever its size is.
pub const LARGE: u32 = 65_537;

/// Whether a variable stands in a type that isn't rigid, whether any variable does, how many nodes it has as a tree (a
/// large one has `LARGE`), and whether it is an equality type where no variable but the rigid ones admits equality that
/// wasn't made so.
#[derive(Clone, Copy, Debug, PartialEq, Eq)]
pub struct Facts {
    pub flexible: bool,
    pub variable: bool,
    pub size: u32,
    pub equality: bool,
}

impl Facts {
    /// What is known of no parts at all.
    pub(crate) fn of_nothing() -> Facts
        ensures { result ≡ no_facts }
    {
        Facts {
            flexible: false,
            variable: false,
            size: 0,
            equality: true,
        }
    }

    /// What is known of a variable.
    pub(crate) fn of_variable(birth: Birth) -> Facts
        ensures { result ≡ variable_facts birth }
    {
        Facts {
            flexible: !birth.rigid,
            variable: true,
            size: 1,
            equality: birth.marked,
        }
    }

    /// What is known of parts, and of further ones behind them.
    pub(crate) fn joined(self, further: Facts) -> Facts
        ensures { result ≡ joined self further }
    {
        Facts {
            flexible: self.flexible || further.flexible,
            variable: self.variable || further.variable,
            size: self.size.saturating_add(further.size).min(LARGE),
            equality: self.equality && further.equality,
        }
    }

    /// What is known of a type with this symbol over such parts.
    pub(crate) fn over(self, symbol: &Symbol) -> Facts
        ensures { result ≡ over_symbol symbol.now self }
    {
        let equality = match symbol_equality(symbol) {
            Equality::Never => false,
            Equality::Always => true,
            Equality::ByParts => self.equality,
        };
        Facts {
            flexible: self.flexible,
            variable: self.variable,
            size: self.size.saturating_add(1).min(LARGE),
            equality,
        }
    }
}
