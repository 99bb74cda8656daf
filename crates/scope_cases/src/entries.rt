//! Entries by number: the type with a number, and a value of it.

ghost use Rattle.std.specs.Prelude.{IfOk};
ghost use Rattle.semantic_objects.specs.Trees.{BindsBelow};

use cm_base::{List, NoMemory, Text};
use semantic_objects::{
    Owner, Scheme, TreePart, TyName, TypeFn, TypeStr, TypeTree, ValueEntry, VidStatus,
};
use std::alloc::Global;

/// The unit that owns the types.
const UNIT: &[u8] = b"a.sml";

/// The type with a number.
fn numbered_type(alloc: Global, number: u32) -> Result<TypeTree, NoMemory>
    ensures { IfOk result (λ tree. BindsBelow 0 tree) }
{
    let name = TyName {
        owner: Owner::Unit(Text::from_bytes(alloc, UNIT)?),
        number: u64::from(number),
        arity: 0,
        eq: true,
    };
    TypeTree::make(alloc, TreePart::Named(name, List::new(alloc)))
}

/// The type structure of that type.
pub fn numbered_str(alloc: Global, number: u32) -> Result<TypeStr, NoMemory> {
    Ok(TypeStr {
        function: TypeFn {
            arity: 0,
            body: numbered_type(alloc, number)?,
        },
        cons: List::new(alloc),
    })
}

/// A variable of that type.
pub fn numbered_value(alloc: Global, number: u32) -> Result<ValueEntry, NoMemory> {
    let body = numbered_type(alloc, number)?;
    Ok(ValueEntry {
        status: VidStatus::Variable,
        scheme: Scheme::make(List::new(alloc), body)?,
    })
}
