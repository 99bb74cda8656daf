//! What an environment has under its names.

use crate::scheme::Scheme;
use crate::tree::TypeTree;
use cm_base::{List, Text};

/// What a value identifier stands for: a variable, a constructor or an exception constructor.
/// The Definition of Standard ML (Revised), section 4.1.
#[derive(Clone, Copy, Debug, PartialEq, Eq)]
pub enum VidStatus {
    Variable,
    Constructor,
    Exception,
}

/// A value: its status and its type scheme.
#[derive(Drop)]
pub struct ValueEntry {
    pub status: VidStatus,
    pub scheme: Scheme,
}

/// A type function: how many arguments it takes, and the type in which they stand as bound variables.
#[derive(Drop)]
pub struct TypeFn {
    pub arity: u32,
    pub body: TypeTree,
}

/// A constructor of a datatype.
#[derive(Drop)]
pub struct ConEntry {
    pub name: Text,
    pub scheme: Scheme,
}

/// A type structure: a type function, and the constructors where it is a datatype.
#[derive(Drop)]
pub struct TypeStr {
    pub function: TypeFn,
    pub cons: List<ConEntry>,
}
