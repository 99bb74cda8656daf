//! Symbols over rows: variables, record types, function types and named types.

ghost use Rattle.std.specs.Prelude.{◌≡◌, ℕ, List, map, IfOk};
ghost use Rattle.row_types.specs.Told.{Makes, MakesRecord, MakesArrow, MakesNamed, name_of, place_of};
ghost use Rattle.row_types.specs.declared.rows.TypeRows.{TypeRows};

use crate::rows::{TypeRows, are_types};
use cm_base::{List, NoMemory, Text};
use interface_conditions::are_names;
use interface_nodes::NamedPlace;
use node_bytes::Item;
use row_fields::Fields;
use semantic_objects::{Symbol, TyName, TypeNode};
use std::alloc::Global;

/// A variable by its index. No binder has so many that one has the last number of four bytes.
#[tactic(auto, using(crate::proofs::Found::variable_never))]
pub(crate) fn variable_of(items: &[Item]) -> Option<TypeNode>
    ensures { (home : List ℕ) (rows : TypeRows) → Makes home 1 items.now rows result }
{
    let mut fields = Fields::new(items);
    let index = fields.number()?;
    if !fields.at_end() {
        return None;
    }
    if index == u32::MAX {
        return None;
    }
    Some(TypeNode::Bound(index))
}

/// Names and places, each in a list of their own.
struct Columns {
    names: List<Text>,
    places: List<usize>,
}

/// The names and the places of rows.
fn columns_of(alloc: Global, table: &[NamedPlace]) -> Result<Columns, NoMemory>
    ensures names { IfOk result (λ made. made.names ≡ map name_of table.now) }
    ensures places { IfOk result (λ made. made.places ≡ map place_of table.now) }
{
    let mut names = List::new(alloc);
    let mut places = List::new(alloc);
    for row in table {
        names.add(row.name.copy()?)?;
        places.add(row.place)?;
    }
    Ok(Columns { names, places })
}

/// A record type with these labels and types.
#[tactic(auto, using(crate::proofs::Found::record_names, crate::proofs::Found::record_lacks, crate::proofs::Found::record_found))]
fn record_over(
    alloc: Global,
    rows: &TypeRows,
    table: &[NamedPlace],
) -> Result<Option<TypeNode>, NoMemory>
    ensures { IfOk result (λ found. (home : List ℕ) → MakesRecord home table.now rows.now found) }
{
    let Columns { names, places } = columns_of(alloc, table)?;
    if !are_names(names.as_slice()) {
        return Ok(None);
    }
    if !are_types(rows, places.as_slice())? {
        return Ok(None);
    }
    Ok(Some(TypeNode::Made(Symbol::Record(names), places)))
}

/// A record type.
#[tactic(auto, using(crate::proofs::Found::record_never, crate::proofs::Found::record_longer, crate::proofs::Found::record_of_rows))]
pub(crate) fn record_of(
    alloc: Global,
    rows: &TypeRows,
    items: &[Item],
) -> Result<Option<TypeNode>, NoMemory>
    ensures { IfOk result (λ found. (home : List ℕ) → Makes home 2 items.now rows.now found) }
{
    let mut fields = Fields::new(items);
    let Some(table) = fields.table(alloc)? else {
        return Ok(None);
    };
    if !fields.at_end() {
        return Ok(None);
    }
    record_over(alloc, rows, table.as_slice())
}

/// A function type of two types.
#[tactic(auto, using(crate::proofs::Found::arrow_lacks, crate::proofs::Found::arrow_found))]
fn arrow_over(
    alloc: Global,
    rows: &TypeRows,
    from: usize,
    to: usize,
) -> Result<Option<TypeNode>, NoMemory>
    ensures { IfOk result (λ found. (home : List ℕ) → MakesArrow home from to rows.now found) }
{
    let mut places = List::new(alloc);
    places.add(from)?;
    places.add(to)?;
    if !are_types(rows, places.as_slice())? {
        return Ok(None);
    }
    Ok(Some(TypeNode::Made(Symbol::Arrow, places)))
}

/// A function type.
#[tactic(auto, using(crate::proofs::Found::arrow_never, crate::proofs::Found::arrow_short, crate::proofs::Found::arrow_longer, crate::proofs::Found::arrow_of_rows))]
pub(crate) fn arrow_of(
    alloc: Global,
    rows: &TypeRows,
    items: &[Item],
) -> Result<Option<TypeNode>, NoMemory>
    ensures { IfOk result (λ found. (home : List ℕ) → Makes home 3 items.now rows.now found) }
{
    let mut fields = Fields::new(items);
    let Some(from) = fields.part() else {
        return Ok(None);
    };
    let Some(to) = fields.part() else {
        return Ok(None);
    };
    if !fields.at_end() {
        return Ok(None);
    }
    arrow_over(alloc, rows, from, to)
}

/// A type name over these arguments.
#[tactic(auto, using(crate::proofs::Found::named_arity, crate::proofs::Found::named_lacks, crate::proofs::Found::named_found))]
fn named_over(
    rows: &TypeRows,
    name: TyName,
    args: List<usize>,
) -> Result<Option<TypeNode>, NoMemory>
    ensures { IfOk result (λ found. (home : List ℕ) → MakesNamed home name args rows.now found) }
{
    if args.len() != name.arity as usize {
        return Ok(None);
    }
    if !are_types(rows, args.as_slice())? {
        return Ok(None);
    }
    Ok(Some(TypeNode::Made(Symbol::Name(name), args)))
}

/// A named type.
#[tactic(auto, using(crate::proofs::Found::named_never, crate::proofs::Found::named_short, crate::proofs::Found::named_longer, crate::proofs::Found::named_of_rows))]
pub(crate) fn named_of(
    alloc: Global,
    home: &Text,
    rows: &TypeRows,
    items: &[Item],
) -> Result<Option<TypeNode>, NoMemory>
    ensures { IfOk result (Makes home.now 4 items.now rows.now) }
{
    let mut fields = Fields::new(items);
    let Some(name) = fields.type_name(alloc, home)? else {
        return Ok(None);
    };
    let Some(args) = fields.parts(alloc)? else {
        return Ok(None);
    };
    if !fields.at_end() {
        return Ok(None);
    }
    named_over(rows, name, args)
}
