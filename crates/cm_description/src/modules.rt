//! Whether conditions ask for modules.

ghost use Rattle.std.specs.Prelude.{◌≡◌, map};
ghost use Rattle.cm_description.specs.Modules.{some, names_module, step_names_module};

use cm_conditions::{Cond, Step};

/// Whether a condition asks for a module, by `defined(NS NAME)`.
#[cycle(modules)]
#[tactic(auto, using(crate::proofs::Asking::chain_asks), unfolding(crate::specs::Modules::names_module, crate::specs::Modules::step_names_module))]
pub(crate) fn names_module(cond: &Cond) -> bool
    ensures { result ≡ names_module cond.now }
{
    match cond {
        Cond::Number(_) | Cond::Name(_) | Cond::Defined(_) => false,
        Cond::Provided(_) => true,
        Cond::Parens(inner) | Cond::Not(inner) => names_module(inner.get()),
        Cond::Chain(first, steps) => {
            names_module(first.get()) || some_name_modules(steps.as_slice())
        }
    }
}

/// Whether one of these operators does.
#[cycle(modules)]
fn some_name_modules(steps: &[Step]) -> bool
    ensures { result ≡ some (map step_names_module steps.now) }
{
    for step in steps {
        if step_names_module(step) {
            return true;
        }
    }
    false
}

/// Whether an operator's right side does.
#[cycle(modules)]
#[tactic(auto, unfolding(crate::specs::Modules::names_module, crate::specs::Modules::step_names_module))]
fn step_names_module(step: &Step) -> bool
    ensures { result ≡ step_names_module step.now }
{
    match step {
        Step::Multiply(right)
        | Step::Div(right)
        | Step::Mod(right)
        | Step::Add(right)
        | Step::Subtract(right)
        | Step::Equal(right)
        | Step::Unequal(right)
        | Step::Less(right)
        | Step::LessEqual(right)
        | Step::Greater(right)
        | Step::GreaterEqual(right)
        | Step::Andalso(right)
        | Step::Orelse(right) => names_module(right),
    }
}
