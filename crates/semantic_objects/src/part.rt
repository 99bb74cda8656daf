//! What a type tree is made of, one level at a time.

ghost use Rattle.std.specs.Prelude.{◌≡◌, length, IfOk, IsPermutation};
ghost use Rattle.semantic_objects.specs.Symbols.{part_count, HasRisingLabels, AreRising, AreDiffering};
ghost use Rattle.semantic_objects.specs.Trees.{Tree, trees_of};
ghost use Rattle.semantic_objects.specs.Parts.{labels_of, parts_of, arrow_tree, part_tree, IsReadPart};
ghost use Rattle.semantic_objects.specs.Fields.{AreFieldsOf};

use crate::name::{TyId, TyName};
use crate::symbol::Symbol;
use crate::tree::TypeTree;
use cm_base::{List, NoMemory, Text};
use std::alloc::Global;

/// A field of a record type.
#[derive(Drop)]
pub struct TreeField {
    pub label: Text,
    pub part: TypeTree,
}

/// A variable of the scheme by its place in the list of marks, a variable of a table, or a type over trees.
#[derive(Drop)]
pub enum TreePart {
    Bound(u32),
    Free(TyId),
    Record(List<TreeField>),
    Arrow(TypeTree, TypeTree),
    Named(TyName, List<TypeTree>),
}

/// Labels in rising byte order, and the trees that stand at them.
#[derive(Drop)]
pub(crate) struct SortedFields {
    pub(crate) labels: List<Text>,
    pub(crate) parts: List<TypeTree>,
}

/// Fields in the byte order of their labels.
fn by_label(fields: List<TreeField>) -> Vec<TreeField>
    requires { AreDiffering (labels_of fields) }
    ensures permutation { IsPermutation fields result.items }
    ensures rising { AreRising (labels_of result.items) }
{
    let mut sorted = fields.into_vec();
    sorted.sort_unstable_by(|a, b| a.label.cmp(&b.label));
    sorted
}

/// The labels and the trees of fields, in the byte order of the labels.
pub(crate) fn sorted_fields(
    alloc: Global,
    fields: List<TreeField>,
) -> Result<SortedFields, NoMemory>
    requires { AreDiffering (labels_of fields) }
    ensures { IfOk result (λ sorted. AreFieldsOf fields sorted.labels sorted.parts) }
{
    let mut labels = List::new(alloc);
    let mut parts = List::new(alloc);
    for field in by_label(fields) {
        let TreeField { label, part } = field;
        labels.add(label)?;
        parts.add(part)?;
    }
    Ok(SortedFields { labels, parts })
}

/// Fields of these labels and trees.
fn fields_of(
    alloc: Global,
    labels: &List<Text>,
    parts: List<TypeTree>,
) -> Result<List<TreeField>, NoMemory>
    requires { length parts ≡ length labels.now }
    ensures labels { IfOk result (λ fields. labels_of fields ≡ labels.now) }
    ensures parts { IfOk result (λ fields. parts_of fields ≡ parts) }
{
    let mut fields = List::new(alloc);
    let mut rest = labels.as_slice();
    for part in parts.into_vec() {
        match rest.split_first() {
            Some((label, more)) => {
                fields.add(TreeField {
                    label: label.copy()?,
                    part,
                })?;
                rest = more;
            }
            None => return Err(NoMemory),
        }
    }
    Ok(fields)
}

/// An arrow between two trees.
fn arrow_between(parts: List<TypeTree>) -> Result<TreePart, NoMemory>
    requires { length parts ≡ 2 }
    ensures tree { IfOk result (λ part. part_tree part ≡ arrow_tree parts) }
    ensures order { IfOk result IsReadPart }
{
    let mut parts = parts;
    match parts.pop() {
        Some(to) => match parts.pop() {
            Some(from) => Ok(TreePart::Arrow(from, to)),
            None => Err(NoMemory),
        },
        None => Err(NoMemory),
    }
}

/// A symbol over trees, as a part.
pub(crate) fn part_over(
    alloc: Global,
    symbol: &Symbol,
    parts: List<TypeTree>,
) -> Result<TreePart, NoMemory>
    requires counted { length parts ≡ part_count symbol.now }
    requires rising { HasRisingLabels symbol.now }
    ensures tree { IfOk result (λ part. part_tree part ≡ Tree.Made symbol.now (trees_of parts)) }
    ensures order { IfOk result IsReadPart }
{
    match symbol {
        Symbol::Arrow => arrow_between(parts),
        Symbol::Record(labels) => Ok(TreePart::Record(fields_of(alloc, labels, parts)?)),
        Symbol::Name(name) => Ok(TreePart::Named(name.copy()?, parts)),
    }
}
