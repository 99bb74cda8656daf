//! The fields of record types in the order of their labels.

ghost use Rattle.std.specs.Prelude.{◌≡◌, IfOk, IsPermutation};
ghost use Rattle.semantic_objects.specs.Symbols.{AreRising, AreDiffering};
ghost use Rattle.sml_types.specs.Looking.{labels_of, ids_of, AreSorted};

use crate::look::LookField;
use cm_base::{List, NoMemory, Text};
use semantic_objects::TyId;
use std::alloc::Global;

/// Labels in rising byte order, and the ids that stand at them.
#[derive(Drop)]
pub(crate) struct Sorted {
    pub(crate) labels: List<Text>,
    pub(crate) parts: List<TyId>,
}

/// Fields in the byte order of their labels.
fn by_label(fields: List<LookField>) -> Vec<LookField>
    requires { AreDiffering (labels_of fields) }
    ensures permutation { IsPermutation fields result.items }
    ensures rising { AreRising (labels_of result.items) }
{
    let mut sorted = fields.into_vec();
    sorted.sort_unstable_by(|a, b| a.label.cmp(&b.label));
    sorted
}

/// The labels and the ids of fields, in the byte order of the labels.
pub(crate) fn in_order(alloc: Global, fields: List<LookField>) -> Result<Sorted, NoMemory>
    requires { AreDiffering (labels_of fields) }
    ensures { IfOk result (λ sorted. AreSorted fields sorted.labels sorted.parts) }
{
    let mut labels = List::new(alloc);
    let mut parts = List::new(alloc);
    for field in by_label(fields) {
        let LookField { label, part } = field;
        labels.add(label)?;
        parts.add(part)?;
    }
    Ok(Sorted { labels, parts })
}
