//! What stands above the parts of a type.

ghost use Rattle.std.specs.Prelude.{◌≡◌, IfOk, IsTrue, ◌↔◌};

use crate::name::TyName;
use cm_base::{List, NoMemory, Text};

/// A function type of two parts, a record type with a part for each label, or a type name with its arguments.
/// The Definition of Standard ML (Revised), section 4.2.
#[derive(Clone, Debug, Drop)]
pub enum Symbol {
    Arrow,
    Record(List<Text>),
    Name(TyName),
}

impl Symbol {
    /// Another symbol, equal to this one.
    pub fn copy(&self) -> Result<Symbol, NoMemory>
        ensures { IfOk result (λ copy. copy ≡ self.now) }
    {
        Ok(self.clone()?)
    }

    /// Whether the two are one symbol, with all that stands in them.
    pub fn is_same(&self, other: &Symbol) -> bool
        ensures { IsTrue result ↔ (self.now ≡ other.now) }
    {
        match (self, other) {
            (Symbol::Arrow, Symbol::Arrow) => true,
            (Symbol::Record(these), Symbol::Record(those)) => these.as_slice() == those.as_slice(),
            (Symbol::Name(this), Symbol::Name(that)) => this.is_same(that),
            _ => false,
        }
    }
}
