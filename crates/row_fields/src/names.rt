//! Type names at the front of some items.

ghost use Rattle.std.specs.Prelude.{◌≡◌, ◌↔◌, IsTrue, length, IfOk};
ghost use Rattle.node_bytes.specs.Shapes.{with_text};
ghost use Rattle.interface_format.specs.Rules.{HasText, IsNumber, IsTypeName};
ghost use Rattle.interface_format.specs.Tags.{with_owner, with_type_name};
ghost use Rattle.row_fields.specs.Taking.{itself, IsText};
ghost use Rattle.row_fields.specs.Owning.{TakesOwned, IsForeign, IsOwn};

use crate::fields::Fields;
use cm_base::{NoMemory, Text};
use semantic_objects::{Owner, TyName};
use std::alloc::Global;

/// Whether the length of a text has four bytes.
fn is_short(text: &Text) -> bool
    ensures { IsTrue result ↔ IsText text.now }
{
    text.as_bytes().len() <= u32::MAX as usize
}

impl<'a> Fields<'a> {
    /// Takes the name of another unit than `home`.
    fn unit(&mut self, alloc: Global, home: &Text) -> Result<Option<Text>, NoMemory>
        ensures { TakesOwned itself (IsForeign home.now) with_text result self.old self.new }
    {
        let Some(unit) = self.text() else {
            return Ok(None);
        };
        if unit == home.as_bytes() {
            return Ok(None);
        }
        Ok(Some(Text::from_bytes(alloc, unit)?))
    }

    /// Takes what owns a type name. The unit's own names are those of `home`, and no other unit has that name.
    pub fn owner(&mut self, alloc: Global, home: &Text) -> Result<Option<Owner>, NoMemory>
        ensures { TakesOwned itself HasText (with_owner home.now) result self.old self.new }
    {
        let Some(kind) = self.byte() else {
            return Ok(None);
        };
        match kind {
            0 => Ok(Some(Owner::Basis)),
            1 => own(home),
            2 => match self.unit(alloc, home)? {
                Some(unit) => Ok(Some(Owner::Unit(unit))),
                None => Ok(None),
            },
            3 => Ok(Some(Owner::Bound)),
            _ => Ok(None),
        }
    }

    /// Takes a type name.
    pub fn type_name(&mut self, alloc: Global, home: &Text) -> Result<Option<TyName>, NoMemory>
        ensures { TakesOwned itself IsTypeName (with_type_name home.now) result self.old self.new }
    {
        let Some(owner) = self.owner(alloc, home)? else {
            return Ok(None);
        };
        let Some(number) = self.number() else {
            return Ok(None);
        };
        let Some(arity) = self.number() else {
            return Ok(None);
        };
        let Some(eq) = self.flag() else {
            return Ok(None);
        };
        Ok(Some(TyName {
            owner,
            number: number as u64,
            arity,
            eq,
        }))
    }
}

/// The unit itself as an owner, if its name can be written.
fn own(home: &Text) -> Result<Option<Owner>, NoMemory>
    ensures { IfOk result (IsOwn home.now) }
{
    if !is_short(home) {
        return Ok(None);
    }
    Ok(Some(Owner::Unit(home.copy()?)))
}
