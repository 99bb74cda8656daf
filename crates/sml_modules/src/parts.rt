//! What signatures and functors are made of and read as, and entries with their names.

use crate::id::EnvId;
use cm_base::{List, Text};
use semantic_objects::{TyName, TypeStr, ValueEntry};

/// The type names that a signature binds, and its environment.
#[derive(Drop)]
pub struct SigParts {
    pub bound: List<TyName>,
    pub env: EnvId,
}

/// The type names that a functor binds, its parameter, the further names that its result binds, and the result.
#[derive(Drop)]
pub struct FunParts {
    pub bound: List<TyName>,
    pub param: EnvId,
    pub further: List<TyName>,
    pub result: EnvId,
}

/// A structure and its name.
#[derive(Drop)]
pub struct NamedEnv {
    pub name: Text,
    pub env: EnvId,
}

/// A type structure and its name.
#[derive(Drop)]
pub struct NamedType {
    pub name: Text,
    pub entry: TypeStr,
}

/// A value and its name.
#[derive(Drop)]
pub struct NamedValue {
    pub name: Text,
    pub entry: ValueEntry,
}
