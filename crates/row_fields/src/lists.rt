//! Lists at the front of some items.

ghost use Rattle.interface_format.specs.Tags.{with_named, with_value};
ghost use Rattle.node_bytes.specs.Nodes.{Content};
ghost use Rattle.node_bytes.specs.Shapes.{with_items, with_list};
ghost use Rattle.interface_nodes.specs.Fields.{row_at, value_at};
ghost use Rattle.row_fields.specs.Taking.{IsAny, part_of};
ghost use Rattle.row_fields.specs.Owning.{TakesOwned};
ghost use Rattle.row_fields.specs.Listing.{each_of, AreMany, AreItems, HasName, IsValueName};

use crate::fields::Fields;
use cm_base::{List, NoMemory, Text};
use interface_nodes::{NamedPlace, ValuePlace};
use std::alloc::Global;

impl<'a> Fields<'a> {
    /// Takes a name with the place of a part.
    fn named(&mut self, alloc: Global) -> Result<Option<NamedPlace>, NoMemory>
        ensures { TakesOwned row_at HasName with_named result self.old self.new }
    {
        let Some(name) = self.text() else {
            return Ok(None);
        };
        let Some(place) = self.part() else {
            return Ok(None);
        };
        let name = Text::from_bytes(alloc, name)?;
        Ok(Some(NamedPlace { name, place }))
    }

    /// Takes the name of a value with its status and the place of its scheme.
    fn value(&mut self, alloc: Global) -> Result<Option<ValuePlace>, NoMemory>
        ensures { TakesOwned value_at IsValueName with_value result self.old self.new }
    {
        let Some(name) = self.text() else {
            return Ok(None);
        };
        let Some(status) = self.status() else {
            return Ok(None);
        };
        let Some(place) = self.part() else {
            return Ok(None);
        };
        let name = Text::from_bytes(alloc, name)?;
        Ok(Some(ValuePlace {
            name,
            status,
            place,
        }))
    }

    /// Takes so many parts.
    fn many_parts(&mut self, alloc: Global, count: u32) -> Result<Option<List<usize>>, NoMemory>
        ensures { TakesOwned (each_of part_of) (AreMany count IsAny) (with_items Content.part) result self.old self.new }
    {
        let mut places = List::new(alloc);
        for _ in 0..count {
            match self.part() {
                Some(place) => places.add(place)?,
                None => return Ok(None),
            }
        }
        Ok(Some(places))
    }

    /// Takes the places of parts behind their count.
    pub fn parts(&mut self, alloc: Global) -> Result<Option<List<usize>>, NoMemory>
        ensures { TakesOwned (each_of part_of) (AreItems IsAny) (with_list Content.part) result self.old self.new }
    {
        let Some(count) = self.number() else {
            return Ok(None);
        };
        self.many_parts(alloc, count)
    }

    /// Takes so many names with the places of parts.
    fn many_named(
        &mut self,
        alloc: Global,
        count: u32,
    ) -> Result<Option<List<NamedPlace>>, NoMemory>
        ensures { TakesOwned (each_of row_at) (AreMany count HasName) (with_items with_named) result self.old self.new }
    {
        let mut rows = List::new(alloc);
        for _ in 0..count {
            match self.named(alloc)? {
                Some(row) => rows.add(row)?,
                None => return Ok(None),
            }
        }
        Ok(Some(rows))
    }

    /// Takes names with the places of parts behind their count.
    pub fn table(&mut self, alloc: Global) -> Result<Option<List<NamedPlace>>, NoMemory>
        ensures { TakesOwned (each_of row_at) (AreItems HasName) (with_list with_named) result self.old self.new }
    {
        let Some(count) = self.number() else {
            return Ok(None);
        };
        self.many_named(alloc, count)
    }

    /// Takes so many values.
    fn many_values(
        &mut self,
        alloc: Global,
        count: u32,
    ) -> Result<Option<List<ValuePlace>>, NoMemory>
        ensures { TakesOwned (each_of value_at) (AreMany count IsValueName) (with_items with_value) result self.old self.new }
    {
        let mut rows = List::new(alloc);
        for _ in 0..count {
            match self.value(alloc)? {
                Some(row) => rows.add(row)?,
                None => return Ok(None),
            }
        }
        Ok(Some(rows))
    }

    /// Takes values behind their count.
    pub fn values(&mut self, alloc: Global) -> Result<Option<List<ValuePlace>>, NoMemory>
        ensures { TakesOwned (each_of value_at) (AreItems IsValueName) (with_list with_value) result self.old self.new }
    {
        let Some(count) = self.number() else {
            return Ok(None);
        };
        self.many_values(alloc, count)
    }
}
