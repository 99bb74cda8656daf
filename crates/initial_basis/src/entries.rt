//! Rows as entries of an environment: constructors of a type, and values.

ghost use Rattle.std.specs.Prelude.{◌≡◌, ◌++◌, [], IfOk, OnOk, IsTrue, ◌↔◌, map};
ghost use Rattle.std.specs.Str.{bytes_eq};
ghost use Rattle.initial_basis.specs.Basis.{last_word, cons_of_row, cons_of, values_of_row, values_of};

use crate::phrases::scheme_of;
use crate::row::Row;
use crate::type_names::{NamedName, last_word};
use cm_base::{List, NoMemory, Text};
use semantic_objects::{ConEntry, ValueEntry, VidStatus};
use sml_modules::NamedValue;
use std::alloc::Global;

/// Adds the constructors of a row, where it is for those of this type.
fn add_cons(
    alloc: Global,
    names: &[NamedName],
    ty: &Text,
    row: &Row,
    cons: &mut List<ConEntry>,
) -> Result<(), NoMemory>
    ensures { OnOk result (cons.new ≡ cons.old ++ cons_of_row names.now ty.now row.now) }
{
    let last = last_word(&row.is)?;
    if last.as_bytes() == ty.as_bytes() {
        for name in row.names.as_slice() {
            cons.add(ConEntry {
                name: name.copy()?,
                scheme: scheme_of(alloc, names, row.is.as_slice())?,
            })?;
        }
    }
    Ok(())
}

/// The constructors of a type.
pub(crate) fn cons_of(
    alloc: Global,
    names: &[NamedName],
    rows: &List<Row>,
    ty: &Text,
) -> Result<List<ConEntry>, NoMemory>
    ensures { IfOk result (λ cons. cons ≡ cons_of names.now rows.now ty.now) }
{
    let mut cons = List::new(alloc);
    for row in rows.as_slice() {
        add_cons(alloc, names, ty, row, &mut cons)?;
    }
    Ok(cons)
}

/// Adds the values of a row.
fn add_row(
    alloc: Global,
    names: &[NamedName],
    status: VidStatus,
    row: &Row,
    values: &mut List<NamedValue>,
) -> Result<(), NoMemory>
    ensures { OnOk result (values.new ≡ values.old ++ values_of_row names.now status row.now) }
{
    for name in row.names.as_slice() {
        let scheme = scheme_of(alloc, names, row.is.as_slice())?;
        values.add(NamedValue {
            name: name.copy()?,
            entry: ValueEntry { status, scheme },
        })?;
    }
    Ok(())
}

/// Adds the values of rows.
pub(crate) fn add_values(
    alloc: Global,
    names: &[NamedName],
    status: VidStatus,
    rows: &List<Row>,
    values: &mut List<NamedValue>,
) -> Result<(), NoMemory>
    ensures { OnOk result (values.new ≡ values.old ++ values_of names.now status rows.now) }
{
    for row in rows.as_slice() {
        add_row(alloc, names, status, row, values)?;
    }
    Ok(())
}
