//! The parts of which every node is made, as bytes.

ghost use Rattle.std.specs.Prelude.{◌≡◌, ◌∷◌, ◌++◌, OnOk};
ghost use Rattle.cm_bytes.specs.Fields.{u32_of, list_of};
ghost use Rattle.sml_syntax.specs.Code.{name_of, long_of};

use cm_base::{List, NoMemory, Text};
use cm_bytes::Writer;
use sml_trees::{LongName, Name};

/// What has bytes of its own, wherever it stands in the code.
pub trait Spelled {
    ghost use Rattle.std.specs.Prelude.{List, ℕ};

    ghost bytes: { Self → List ℕ };

    fn write(&self, out: &mut Writer) -> Result<(), NoMemory>
        ensures { OnOk result (out.new ≡ out.old ++ bytes self.now) };
}

/// A count. One that four bytes don't hold is answered as want of memory, which is met long before it.
pub fn write_count(out: &mut Writer, count: usize) -> Result<(), NoMemory>
    ensures { OnOk result (out.new ≡ out.old ++ u32_of count) }
{
    match u32::try_from(count) {
        Ok(count) => out.u32(count),
        Err(_) => Err(NoMemory),
    }
}

#[tactic(auto, unfolding(cm_bytes::specs::Fields::list_of))]
pub fn write_list<T: Spelled>(out: &mut Writer, items: &List<T>) -> Result<(), NoMemory>
    ensures { OnOk result (out.new ≡ out.old ++ list_of T.bytes items.now) }
{
    write_count(out, items.len())?;
    for item in items.as_slice() {
        item.write(out)?;
    }
    Ok(())
}

/// A node of one part.
pub fn write_tagged<T: Spelled>(out: &mut Writer, tag: u8, part: &T) -> Result<(), NoMemory>
    ensures { OnOk result (out.new ≡ out.old ++ tag ∷ T.bytes part.now) }
{
    out.u8(tag)?;
    part.write(out)
}

/// A node of one list.
pub fn write_tagged_list<T: Spelled>(
    out: &mut Writer,
    tag: u8,
    items: &List<T>,
) -> Result<(), NoMemory>
    ensures { OnOk result (out.new ≡ out.old ++ tag ∷ list_of T.bytes items.now) }
{
    out.u8(tag)?;
    write_list(out, items)
}

/// A node of a name and the long identifier that it is to stand for.
pub fn write_replication(
    out: &mut Writer,
    tag: u8,
    name: &Name,
    long: &LongName,
) -> Result<(), NoMemory>
    ensures { OnOk result (out.new ≡ out.old ++ tag ∷ (name_of name.now ++ long_of long.now)) }
{
    out.u8(tag)?;
    name.write(out)?;
    long.write(out)
}

impl Spelled for Text {
    ghost use Rattle.cm_bytes.specs.Fields.{text_of};

    ghost bytes = { text_of };

    #[tactic(auto, unfolding(cm_bytes::specs::Fields::text_of))]
    fn write(&self, out: &mut Writer) -> Result<(), NoMemory> {
        let bytes = self.as_bytes();
        write_count(out, bytes.len())?;
        out.raw(bytes)
    }
}

impl Spelled for i64 {
    ghost use Rattle.sml_syntax.specs.Code.{int_of};

    ghost bytes = { int_of };

    #[tactic(auto, unfolding(crate::specs::Code::int_of))]
    fn write(&self, out: &mut Writer) -> Result<(), NoMemory> {
        out.raw(&self.cast_unsigned().to_be_bytes())
    }
}

impl Spelled for u8 {
    ghost use Rattle.std.specs.Prelude.{[]};

    ghost bytes = { λ byte. byte ∷ [] };

    fn write(&self, out: &mut Writer) -> Result<(), NoMemory> {
        out.u8(*self)
    }
}

impl Spelled for Name {
    ghost use Rattle.sml_syntax.specs.Code.{name_of};

    ghost bytes = { name_of };

    fn write(&self, out: &mut Writer) -> Result<(), NoMemory> {
        self.text.write(out)
    }
}

impl Spelled for LongName {
    ghost use Rattle.sml_syntax.specs.Code.{long_of};

    ghost bytes = { long_of };

    fn write(&self, out: &mut Writer) -> Result<(), NoMemory> {
        write_list(out, &self.parts)
    }
}
