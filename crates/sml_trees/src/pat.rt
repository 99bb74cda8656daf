//! Patterns. Tuples are records, and lists are made with `::` and `nil`.

use crate::name::{At, LongName, Name};
use crate::ty::Ty;
use cm_base::{Boxed, List, Text};

/// A pattern.
#[cycle(pat)]
#[derive(Drop)]
pub enum Pat {
    Wild(At),
    Int(i64, At),
    Str(Text, At),
    Char(u8, At),
    Long(LongName, At),
    Record(List<PatField>, At),
    /// A constructor with its argument.
    Con(LongName, Boxed<Pat>, At),
    Typed(Boxed<Pat>, Ty, At),
    /// `name : ty as pat`
    As(Name, Option<Ty>, Boxed<Pat>, At),
}

/// A field of a record pattern.
#[cycle(pat)]
#[derive(Drop)]
pub struct PatField {
    pub label: Name,
    pub pat: Pat,
}
