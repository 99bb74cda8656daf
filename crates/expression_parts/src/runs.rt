//! Runs of applications and infix operators, while they are read.

ghost use Rattle.std.specs.Prelude.{◌≡◌, IfOk};
ghost use Rattle.expression_parts.specs.ExpNodes.{run_of, with_atom, with_operator, run_exp};

use cm_base::{List, NoMemory};
use infix_names::fixity::open_after;
use phrase_reading::tall::{Tall, one_above};
use sml_trees::{At, Fixity, FullExp, FullExpItem, Name};
use std::alloc::Global;

/// What was read of a run: its items, the operators with which a further one may clash, and the most levels that an
/// item nests.
#[derive(Drop)]
pub struct Run {
    pub items: List<FullExpItem>,
    pub ops: List<Fixity>,
    pub height: u32,
}

/// A run that begins with an atomic expression.
pub fn run_of(alloc: Global, first: Tall<FullExp>) -> Result<Run, NoMemory>
    ensures { IfOk result (λ run. run ≡ run_of first) }
{
    let mut items = List::new(alloc);
    items.add(FullExpItem::Atom(first.tree))?;
    Ok(Run {
        items,
        ops: List::new(alloc),
        height: first.height,
    })
}

/// One more atomic expression.
pub fn with_atom(run: Run, next: Tall<FullExp>) -> Result<Run, NoMemory>
    ensures { IfOk result (λ more. more ≡ with_atom run next) }
{
    let Run {
        mut items,
        ops,
        height,
    } = run;
    items.add(FullExpItem::Atom(next.tree))?;
    Ok(Run {
        items,
        ops,
        height: height.max(next.height),
    })
}

/// One more operator.
pub fn with_operator(alloc: Global, run: Run, name: Name, fixity: Fixity) -> Result<Run, NoMemory>
    ensures { IfOk result (λ more. more ≡ with_operator run name fixity) }
{
    let Run {
        mut items,
        ops,
        height,
    } = run;
    items.add(FullExpItem::Operator(name, fixity))?;
    let ops = open_after(alloc, &ops, fixity)?;
    Ok(Run { items, ops, height })
}

/// The tree of a whole run.
pub fn run_exp(at: At, run: Run) -> Result<Tall<FullExp>, NoMemory>
    ensures { IfOk result (λ exp. exp ≡ run_exp at run) }
{
    one_above(FullExp::Run(run.items, at), run.height)
}
