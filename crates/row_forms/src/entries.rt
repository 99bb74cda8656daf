//! Type functions, signatures, schemes and type structures.

ghost use Rattle.std.specs.Prelude.{◌≡◌, IfOk};
ghost use Rattle.row_fields.specs.Taking.{itself};
ghost use Rattle.row_fields.specs.Owning.{TakesOwned};
ghost use Rattle.row_forms.specs.Forms.{HasForm, HasFormOwned, with_marks, AreMarks, SpellMarks};
ghost use Rattle.row_forms.specs.Forms.{with_counted, FitsCounted, counted_at};
ghost use Rattle.row_forms.specs.Forms.{with_scheme, FitsScheme, scheme_at, with_type, FitsType, type_at};

use cm_base::{List, NoMemory};
use interface_nodes::NamedPlace;
use node_bytes::Item;
use row_fields::Fields;
use std::alloc::Global;

/// What stands in a type function, its arity and the place of its type, and in a signature, the count of its bound
/// names and the place of its environment.
#[derive(Clone, Copy, Debug)]
pub struct CountedForm {
    pub count: u32,
    pub place: usize,
}

/// What stands in a scheme: its marks, and the place of its type.
#[derive(Drop)]
pub struct SchemeForm {
    pub marks: List<bool>,
    pub place: usize,
}

/// What stands in a type structure: the place of its type function, and its constructors.
#[derive(Drop)]
pub struct TypeForm {
    pub function: usize,
    pub cons: List<NamedPlace>,
}

/// A type function or a signature.
pub fn counted_form(items: &[Item]) -> Option<CountedForm>
    ensures { HasForm counted_at FitsCounted with_counted result items.now }
{
    let mut fields = Fields::new(items);
    let count = fields.number()?;
    let place = fields.part()?;
    if !fields.at_end() {
        return None;
    }
    Some(CountedForm { count, place })
}

/// The marks that bytes are: 1 is one of an equality variable, and 0 of another.
fn marks_in(alloc: Global, bytes: &[u8]) -> Result<Option<List<bool>>, NoMemory>
    ensures { IfOk result (SpellMarks bytes.now) }
{
    let mut marks = List::new(alloc);
    for byte in bytes {
        match *byte {
            0 => marks.add(false)?,
            1 => marks.add(true)?,
            _ => return Ok(None),
        }
    }
    Ok(Some(marks))
}

/// Takes marks.
fn take_marks(alloc: Global, fields: &mut Fields<'_>) -> Result<Option<List<bool>>, NoMemory>
    ensures { TakesOwned itself AreMarks with_marks result fields.old fields.new }
{
    match fields.text() {
        Some(text) => marks_in(alloc, text),
        None => Ok(None),
    }
}

/// A scheme.
pub fn scheme_form(alloc: Global, items: &[Item]) -> Result<Option<SchemeForm>, NoMemory>
    ensures { HasFormOwned scheme_at FitsScheme with_scheme result items.now }
{
    let mut fields = Fields::new(items);
    let Some(marks) = take_marks(alloc, &mut fields)? else {
        return Ok(None);
    };
    let Some(place) = fields.part() else {
        return Ok(None);
    };
    if !fields.at_end() {
        return Ok(None);
    }
    Ok(Some(SchemeForm { marks, place }))
}

/// A type structure.
pub fn type_form(alloc: Global, items: &[Item]) -> Result<Option<TypeForm>, NoMemory>
    ensures { HasFormOwned type_at FitsType with_type result items.now }
{
    let mut fields = Fields::new(items);
    let Some(function) = fields.part() else {
        return Ok(None);
    };
    let Some(cons) = fields.table(alloc)? else {
        return Ok(None);
    };
    if !fields.at_end() {
        return Ok(None);
    }
    Ok(Some(TypeForm { function, cons }))
}
