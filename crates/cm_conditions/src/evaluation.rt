//! The value of a condition.

ghost use Rattle.std.specs.Prelude.{◌≡◌, IfOk, Some, map};
ghost use Rattle.cm_base.specs.Calls.{Gives};
ghost use Rattle.cm_conditions.specs.Values.{condition_value, steps_value, value_at, bad_condition};
ghost use Rattle.cm_conditions.specs.Tables.{by_tables, step_by_tables};

use crate::arithmetic::{difference, div, modulo, product, sum, truth};
use crate::cond::{Cond, Step};
use crate::names::Names;
use cm_base::{Def, Diag, Fault, List, ModName, NoMemory, Place};
use std::alloc::Global;

impl Cond {
    /// The value of a condition, or none where it is undefined.
    #[cycle(value)]
    #[tactic(auto, using(crate::proofs::ValueSteps::chain_steps), unfolding(crate::specs::Values::value_by, crate::specs::Values::step_by))]
    pub(crate) fn value_in(&self, names: &Names) -> Option<i64>
        ensures { result ≡ by_tables names.now self.now }
    {
        match self {
            Cond::Number(number) => Some(*number),
            Cond::Name(name) => Some(names.def(name).unwrap_or(0)),
            Cond::Defined(name) => Some(truth(names.def(name).is_some())),
            Cond::Provided(wanted) => Some(truth(names.has(wanted))),
            Cond::Parens(inner) => inner.get().value_in(names),
            Cond::Not(inner) => Some(truth(inner.get().value_in(names)? == 0)),
            Cond::Chain(first, steps) => {
                let Some(left) = first.get().value_in(names) else {
                    return None;
                };
                value_behind(steps.as_slice(), left, names)
            }
        }
    }
}

/// The value behind these operators, from the value before them.
#[cycle(value)]
#[tactic(auto, using(crate::proofs::ValueSteps::chain_steps))]
fn value_behind(steps: &[Step], first: i64, names: &Names) -> Option<i64>
    ensures { result ≡ steps_value (map (step_by_tables names.now) steps.now) (Some first) }
{
    let mut left = first;
    for step in steps {
        let Some(value) = step.value_in(left, names) else {
            return None;
        };
        left = value;
    }
    Some(left)
}

impl Step {
    /// The value of an operator, from that of its left side.
    #[cycle(value)]
    #[tactic(auto, unfolding(crate::specs::Values::value_by, crate::specs::Values::step_by))]
    fn value_in(&self, left: i64, names: &Names) -> Option<i64>
        ensures { result ≡ step_by_tables names.now self.now left }
    {
        match self {
            Step::Multiply(right) => product(left, right.value_in(names)?),
            Step::Div(right) => div(left, right.value_in(names)?),
            Step::Mod(right) => modulo(left, right.value_in(names)?),
            Step::Add(right) => sum(left, right.value_in(names)?),
            Step::Subtract(right) => difference(left, right.value_in(names)?),
            Step::Equal(right) => Some(truth(left == right.value_in(names)?)),
            Step::Unequal(right) => Some(truth(left != right.value_in(names)?)),
            Step::Less(right) => Some(truth(left < right.value_in(names)?)),
            Step::LessEqual(right) => Some(truth(left <= right.value_in(names)?)),
            Step::Greater(right) => Some(truth(left > right.value_in(names)?)),
            Step::GreaterEqual(right) => Some(truth(left >= right.value_in(names)?)),
            Step::Andalso(right) => Some(truth(left != 0 && right.value_in(names)? != 0)),
            Step::Orelse(right) => Some(truth(left != 0 || right.value_in(names)? != 0)),
        }
    }
}

/// The diagnostic 3 at a place.
pub(crate) fn bad_condition(alloc: Global, at: &Place) -> Result<Diag, NoMemory>
    ensures { IfOk result (λ diag. diag ≡ bad_condition at.now) }
{
    Ok(Diag {
        number: 3,
        at: Place {
            file: at.file.copy()?,
            line: at.line,
            col: at.col,
        },
        names: List::new(alloc),
    })
}

/// The value of a condition under these definitions, where these modules are there: a number of 64 bits, and 0
/// alone is false. 3 at the place where it is undefined: a sum, difference, product or quotient of more bits, or
/// a divisor 0 of `div` or `mod`.
#[tactic(auto, using(crate::proofs::ValueSteps::value_of_tables))]
pub fn value(
    alloc: Global,
    at: &Place,
    cond: &Cond,
    defs: &List<Def>,
    exports: &List<ModName>,
) -> Result<i64, Fault>
    ensures { Gives result (value_at at.now (condition_value defs.now exports.now cond.now)) }
{
    let names = Names::of(alloc, defs.as_slice(), exports.as_slice())?;
    match cond.value_in(&names) {
        Some(value) => Ok(value),
        None => Err(Fault::Diag(bad_condition(alloc, at)?)),
    }
}
