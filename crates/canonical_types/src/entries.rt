//! Type structures and values with other names, and their schemes in their one form.

ghost use Rattle.std.specs.Prelude.{◌≡◌, map, IfOk};
ghost use Rattle.unification.specs.Closing.{canonical_scheme};
ghost use Rattle.realisation.specs.Environments.{changed_con, changed_type, changed_value};
ghost use Rattle.realisation.specs.Canonical.{to_canonical};
ghost use Rattle.canonical_types.specs.Orders.{by_order};

use crate::numbering::Numbering;
use crate::renaming::{renamed_tree, reordered_tree};
use crate::same::{is_same_type, is_same_value};
use crate::variables::variables_of;
use cm_base::{List, NoMemory};
use env_parts::Facts;
use environment_walks::TypeChanges;
use semantic_objects::{ConEntry, Scheme, TypeFn, TypeStr, TypeTree, ValueEntry};
use std::alloc::Global;

/// The one form of a scheme of these marks and this type: its variables by first occurrence, and no others.
fn ordered_scheme(alloc: Global, marks: &[bool], body: &TypeTree) -> Result<Scheme, NoMemory>
    ensures { IfOk result (λ made. made ≡ canonical_scheme (record { marks = marks.now; body = body.now })) }
{
    let variables = variables_of(alloc, body)?;
    let marks = variables.marks(alloc, marks)?;
    let body = reordered_tree(alloc, &variables, body)?;
    Scheme::make(marks, body)
}

/// A scheme with other names in its one form.
fn canonical_scheme(alloc: Global, by: &Numbering, scheme: &Scheme) -> Result<Scheme, NoMemory>
    ensures { IfOk result (λ made. made ≡ (to_canonical (by_order by.now)).scheme scheme.now) }
{
    let body = renamed_tree(alloc, by, scheme.body())?;
    ordered_scheme(alloc, scheme.marks(), &body)
}

/// Constructors with other names, and their schemes in their one form.
fn canonical_cons(
    alloc: Global,
    by: &Numbering,
    cons: &List<ConEntry>,
) -> Result<List<ConEntry>, NoMemory>
    ensures { IfOk result (λ made. made ≡ map (changed_con (to_canonical (by_order by.now))) cons.now) }
{
    let mut made = List::new(alloc);
    for con in cons.as_slice() {
        made.add(ConEntry {
            name: con.name.copy()?,
            scheme: canonical_scheme(alloc, by, &con.scheme)?,
        })?;
    }
    Ok(made)
}

/// A type structure with other names, and the schemes of its constructors in their one form.
fn canonical_type(alloc: Global, by: &Numbering, entry: &TypeStr) -> Result<TypeStr, NoMemory>
    ensures { IfOk result (λ made. made ≡ changed_type (to_canonical (by_order by.now)) entry.now) }
{
    let function = TypeFn {
        arity: entry.function.arity,
        body: renamed_tree(alloc, by, &entry.function.body)?,
    };
    let cons = canonical_cons(alloc, by, &entry.cons)?;
    Ok(TypeStr { function, cons })
}

/// A value with other names, and its scheme in its one form.
fn canonical_value(
    alloc: Global,
    by: &Numbering,
    entry: &ValueEntry,
) -> Result<ValueEntry, NoMemory>
    ensures { IfOk result (λ made. made ≡ changed_value (to_canonical (by_order by.now)) entry.now) }
{
    Ok(ValueEntry {
        status: entry.status,
        scheme: canonical_scheme(alloc, by, &entry.scheme)?,
    })
}

impl TypeChanges for Numbering {
    ghost use Rattle.realisation.specs.Canonical.{to_canonical};
    ghost use Rattle.canonical_types.specs.Orders.{by_order};

    ghost change = { λ order. to_canonical (by_order order) };

    fn changed_type(&self, alloc: Global, entry: &TypeStr) -> Result<Option<TypeStr>, NoMemory> {
        let made = canonical_type(alloc, self, entry)?;
        if is_same_type(&made, entry) {
            return Ok(None);
        }
        Ok(Some(made))
    }

    fn changed_value(
        &self,
        alloc: Global,
        entry: &ValueEntry,
    ) -> Result<Option<ValueEntry>, NoMemory> {
        let made = canonical_value(alloc, self, entry)?;
        if is_same_value(&made, entry) {
            return Ok(None);
        }
        Ok(Some(made))
    }

    fn keeps_all_with(&self, _facts: Facts) -> bool {
        false
    }
}
