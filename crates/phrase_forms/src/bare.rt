//! What is written in one form and has a bare one, and lists of it.

ghost use Rattle.std.specs.Prelude.{◌≡◌, IfOk, map};

use cm_base::{List, NoMemory};
use std::alloc::Global;

/// What is written and has a bare form.
pub trait Full {
    type Bare: Drop;

    ghost bare: { Self → Self.Bare };

    fn to_bare(&self, alloc: Global) -> Result<Self::Bare, NoMemory>
        ensures { IfOk result (λ made. made ≡ bare self.now) };
}

/// The bare forms of all items.
pub fn to_list<T: Full>(alloc: Global, items: &List<T>) -> Result<List<T::Bare>, NoMemory>
    ensures { IfOk result (λ made. made ≡ map T.bare items.now) }
{
    let mut made = List::new(alloc);
    for item in items.as_slice() {
        made.add(item.to_bare(alloc)?)?;
    }
    Ok(made)
}
