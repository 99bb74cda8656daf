//! Values in scope.

ghost use Rattle.std.specs.Prelude.{◌≡◌, IfOk};

use cm_base::{NoMemory, Text};
use env_parts::copy_value;
use semantic_objects::ValueEntry;
use std::alloc::Global;
use table_schemes::TableScheme;

/// A value in scope: an entry of an environment, or one that the unit itself made and whose scheme is still one of the
/// table of types. Of which form that is, is left to who elaborates.
#[derive(Drop)]
pub enum ValueInScope<V> {
    Entry(ValueEntry),
    Own(V),
}

/// A value as it is bound: with what a table of types has of its scheme, if it has that.
#[derive(Drop)]
pub struct BoundValue<V> {
    pub value: ValueInScope<V>,
    pub scheme: Option<TableScheme>,
}

/// A value that is to be bound, and its name.
#[derive(Drop)]
pub struct NamedBound<V> {
    pub name: Text,
    pub bound: BoundValue<V>,
}

impl<V: Copy + Drop> ValueInScope<V> {
    /// The same value.
    pub fn copy(&self, alloc: Global) -> Result<ValueInScope<V>, NoMemory>
        ensures { IfOk result (λ copy. copy ≡ self.now) }
    {
        match self {
            ValueInScope::Entry(entry) => Ok(ValueInScope::Entry(copy_value(alloc, entry)?)),
            ValueInScope::Own(own) => Ok(ValueInScope::Own(*own)),
        }
    }
}
