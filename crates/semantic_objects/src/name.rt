//! Type names, and the ids of a table of types.

ghost use Rattle.std.specs.Prelude.{◌≡◌, IfOk, IsTrue, ◌↔◌};

use cm_base::{NoMemory, Text};

/// Who made a type name: the initial basis, a unit, or the binder of a signature or of a functor.
#[derive(Clone, Debug, Drop)]
pub enum Owner {
    Basis,
    Unit(Text),
    Bound,
}

/// A type name: its owner, its number there, how many arguments it takes, and whether it admits equality.
/// The Definition of Standard ML (Revised), section 4.1.
#[derive(Clone, Debug, Drop)]
pub struct TyName {
    pub owner: Owner,
    pub number: u64,
    pub arity: u32,
    pub eq: bool,
}

impl Owner {
    pub fn is_same(&self, other: &Owner) -> bool
        ensures { IsTrue result ↔ (self.now ≡ other.now) }
    {
        match (self, other) {
            (Owner::Basis, Owner::Basis) => true,
            (Owner::Unit(this), Owner::Unit(that)) => this.as_bytes() == that.as_bytes(),
            (Owner::Bound, Owner::Bound) => true,
            _ => false,
        }
    }
}

impl TyName {
    /// Whether owner, number, arity and equality are the same.
    pub fn is_same(&self, other: &TyName) -> bool
        ensures { IsTrue result ↔ (self.now ≡ other.now) }
    {
        self.number == other.number
            && self.arity == other.arity
            && self.eq == other.eq
            && self.owner.is_same(&other.owner)
    }

    /// Another type name, equal to this one.
    pub fn copy(&self) -> Result<TyName, NoMemory>
        ensures { IfOk result (λ copy. copy ≡ self.now) }
    {
        Ok(self.clone()?)
    }
}

/// An id of a table of types: a type variable by its number, in the order in which they were made, or a type that was
/// made of earlier ids.
#[derive(Clone, Copy, Debug, PartialEq, Eq)]
pub enum TyId {
    Variable(usize),
    Made(usize),
}
