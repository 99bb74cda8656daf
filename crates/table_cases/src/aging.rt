//! Types that are closed by age.

ghost use Rattle.std.specs.Prelude.{◌≡◌};
ghost use Rattle.type_nodes.specs.Tables.{Has, IsFrontOf};
ghost use Rattle.sml_types.specs.Unifying.{Grown};

use crate::asking::{alone, said};
use crate::scene::{TableScene, id_of};
use case_files::{Part, push_parts};
use cm_base::{List, NoMemory, Text};
use sml_types::{Mark, TyId, TypeTable};
use std::alloc::Global;
use type_printing::push_scheme;

/// Adds the text of a type's scheme, closed by age.
fn push_closed(
    alloc: Global,
    table: &mut TypeTable,
    ty: TyId,
    since: &Mark,
    out: &mut Vec<u8>,
) -> Result<(), NoMemory>
    requires ty { Has table.old ty }
    requires front { IsFrontOf since.now table.old }
    ensures { table.new ≡ table.old }
{
    let tys = alone(alloc, ty)?;
    let schemes = table.generalise_since(&tys, since)?;
    for scheme in schemes.as_slice() {
        push_scheme(alloc, out, scheme)?;
    }
    Ok(())
}

/// Adds what is said of a variable that may not be closed.
fn push_left(
    alloc: Global,
    table: &mut TypeTable,
    own: TyId,
    since: &Mark,
    out: &mut Vec<u8>,
) -> Result<(), NoMemory>
    requires { IsFrontOf since.now table.old }
    ensures { table.new ≡ table.old }
{
    let own = alone(alloc, own)?;
    let unclosed = List::new(alloc);
    let left = table.left_since(&own, &unclosed, since)?;
    push_parts(
        alloc,
        out,
        &[Part::Text(if left.is_some() { b", left" } else { b"" })],
    )
}

/// Makes two types one, and adds what is answered.
fn push_joined(
    alloc: Global,
    table: &mut TypeTable,
    pair: (TyId, TyId),
    out: &mut Vec<u8>,
) -> Result<(), NoMemory>
    requires first { Has table.old pair.0 }
    requires second { Has table.old pair.1 }
    ensures { Grown table.old table.new }
{
    let answer = said(table.unify(pair.0, pair.1))?;
    push_parts(
        alloc,
        out,
        &[Part::Text(b"; "), Part::Text(answer), Part::Text(b": ")],
    )
}

/// Makes two types one, and adds the text of a type's scheme after that, and whether a variable is left.
fn push_after(
    alloc: Global,
    table: &mut TypeTable,
    pair: (TyId, TyId),
    ty: TyId,
    own: TyId,
    since: &Mark,
    out: &mut Vec<u8>,
) -> Result<(), NoMemory>
    requires first { Has table.old pair.0 }
    requires second { Has table.old pair.1 }
    requires ty { Has table.old ty }
    requires front { IsFrontOf since.now table.old }
    ensures { Grown table.old table.new }
{
    push_joined(alloc, table, pair, out)?;
    push_closed(alloc, table, ty, since, out)?;
    push_left(alloc, table, own, since, out)
}

/// Adds the text of a function type, closed by age: at once, after an older type was made one with it, and after another
/// was made one with its argument.
fn push_arrow(
    alloc: Global,
    table: &mut TypeTable,
    older: (TyId, TyId),
    ty: TyId,
    parts: (TyId, TyId),
    since: &Mark,
    out: &mut Vec<u8>,
) -> Result<(), NoMemory>
    requires first { Has table.old older.0 }
    requires second { Has table.old older.1 }
    requires ty { Has table.old ty }
    requires from { Has table.old parts.0 }
    requires front { IsFrontOf since.now table.old }
    ensures { IsFrontOf table.old table.new }
{
    push_closed(alloc, table, ty, since, out)?;
    push_after(alloc, table, (older.0, ty), ty, parts.1, since, out)?;
    push_after(alloc, table, (older.1, parts.0), ty, parts.1, since, out)
}

/// The same of a new function type.
fn push_new(
    alloc: Global,
    table: &mut TypeTable,
    older: (TyId, TyId),
    parts: (TyId, TyId),
    since: &Mark,
    out: &mut Vec<u8>,
) -> Result<(), NoMemory>
    requires first { Has table.old older.0 }
    requires second { Has table.old older.1 }
    requires from { Has table.old parts.0 }
    requires to { Has table.old parts.1 }
    requires front { IsFrontOf since.now table.old }
    ensures { IsFrontOf table.old table.new }
{
    let ty = table.arrow(parts.0, parts.1)?;
    push_arrow(alloc, table, older, ty, parts, since, out)
}

/// The same to a new rigid variable.
fn push_rigid(
    alloc: Global,
    table: &mut TypeTable,
    older: (TyId, TyId),
    from: TyId,
    since: &Mark,
    out: &mut Vec<u8>,
) -> Result<(), NoMemory>
    requires first { Has table.old older.0 }
    requires second { Has table.old older.1 }
    requires from { Has table.old from }
    requires front { IsFrontOf since.now table.old }
    ensures { IsFrontOf table.old table.new }
{
    let to = table.rigid(false)?;
    push_new(alloc, table, older, (from, to), since, out)
}

/// The same from a new variable.
fn push_ages(
    alloc: Global,
    table: &mut TypeTable,
    older: (TyId, TyId),
    since: &Mark,
    out: &mut Vec<u8>,
) -> Result<(), NoMemory>
    requires first { Has table.old older.0 }
    requires second { Has table.old older.1 }
    requires front { IsFrontOf since.now table.old }
    ensures { IsFrontOf table.old table.new }
{
    let from = table.fresh(false)?;
    push_rigid(alloc, table, older, from, since, out)
}

/// The text of a declaration whose types are closed by age. All of it is undone.
fn push_declared(
    alloc: Global,
    table: &mut TypeTable,
    older: (TyId, TyId),
    out: &mut Vec<u8>,
) -> Result<(), NoMemory>
    requires first { Has table.old older.0 }
    requires second { Has table.old older.1 }
    ensures { table.new ≡ table.old }
{
    let since = table.mark();
    let tried = push_ages(alloc, table, older, &since, out);
    table.undo(&since);
    tried
}

impl TableScene {
    /// What a declaration closes by age.
    pub fn declare(&mut self, first: &Text, second: &Text) -> Result<Option<Vec<u8>>, NoMemory> {
        let Some(first) = id_of(&self.table, &self.ids, first) else {
            return Ok(None);
        };
        let Some(second) = id_of(&self.table, &self.ids, second) else {
            return Ok(None);
        };
        let mut out = Vec::new(self.alloc);
        push_declared(self.alloc, &mut self.table, (first, second), &mut out)?;
        push_parts(self.alloc, &mut out, &[Part::Text(b"\n")])?;
        Ok(Some(out))
    }
    /// What the last of so many declarations closes by age.
    pub fn declare_times(
        &mut self,
        first: &Text,
        second: &Text,
        count: u32,
    ) -> Result<Option<Vec<u8>>, NoMemory> {
        let mut last = None;
        for _ in 0..count {
            last = self.declare(first, second)?;
        }
        Ok(last)
    }
}
