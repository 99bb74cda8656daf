//! Units that become bare ones, or are refused.

ghost use Rattle.std.specs.Prelude.{◌≡◌, IfOk};
ghost use Rattle.derived_forms.specs.Bare as spec;
ghost use Rattle.bare_forms.specs.Units.{bare_of};
ghost use Rattle.repeated_names.specs.RepeatedUnits.{first_repeat as repeat_of};
ghost use Rattle.sml_trees.specs.CoreLets.{HasCoreLets};
ghost use Rattle.tree_heights.specs.Heights.{unit_height as height_of};

use crate::unit::to_unit;
use cm_base::{Diag, Fault, List, NoMemory, Place, Text};
use repeated_names::first_repeat;
use sml_trees::{At, BareUnit, FullUnit};
use std::alloc::Global;
use tree_heights::unit_height;

/// How many levels a bare tree may have.
const LIMIT: usize = 1024;

/// The refusal of a name that stands twice, at its second place.
fn bound_twice(alloc: Global, file: &Text, at: At) -> Result<Diag, NoMemory>
    ensures { IfOk result (λ diag. diag ≡ spec.bound_twice file.now at) }
{
    Ok(Diag {
        number: 40,
        at: Place {
            file: file.copy()?,
            line: at.line,
            col: at.col,
        },
        names: List::new(alloc),
    })
}

/// The refusal of a unit: 12 where its bare tree has too many levels, and else 40 where a name stands twice.
#[tactic(auto, using(crate::proofs::Refusals::refusal_steps))]
fn refusal(alloc: Global, unit: &FullUnit) -> Result<Option<Diag>, NoMemory>
    ensures { IfOk result (λ diag. diag ≡ spec.refusal unit.now.file (height_of (bare_of unit.now)) (repeat_of unit.now)) }
{
    if unit_height(alloc, unit)? > LIMIT {
        return Ok(Some(Diag::on_file(alloc, 12, &unit.file)?));
    }
    match first_repeat(alloc, unit)? {
        None => Ok(None),
        Some(twice) => Ok(Some(bound_twice(alloc, &unit.file, twice)?)),
    }
}

/// The bare unit of a unit, which is elaborated. It is refused with 12 on the file exactly where its bare tree has more
/// than 1,024 levels, and else with 40 exactly where a name stands twice in a list that may hold it but once, at the
/// earliest place of such a second name. No expression of the bare unit declares a structure. (The Definition, Appendix A,
/// figures 4 and 6, and 2.9 and 3.5 for names.)
#[tactic(auto, using(crate::proofs::CoreLets::core_steps))]
pub fn to_bare(alloc: Global, unit: &FullUnit) -> Result<BareUnit, Fault>
    ensures answer { spec.Answers result (spec.bare_unit unit.now) }
    ensures core { IfOk result (λ bare. HasCoreLets bare) }
{
    if let Some(diag) = refusal(alloc, unit)? {
        return Err(Fault::Diag(diag));
    }
    Ok(to_unit(alloc, unit)?)
}
