//! Prints conditions.

ghost use Rattle.std.specs.Prelude.{◌≡◌, ◌++◌, IfOk, OnOk};
ghost use Rattle.std.specs.Fmt.{signed_decimal};
ghost use Rattle.std.specs.List.{flat_map};
ghost use Rattle.cm_conditions.specs.Answers.{IsPrinted, IsRead};
ghost use Rattle.cm_conditions.specs.Printing.{defined_text, module_text, not_text, operator_text, printed, printed_step, space_word};

use crate::cond::{Cond, Step};
use crate::lexeme::Operator;
use cm_base::{ModName, Namespace, NoMemory, Text};
use std::alloc::Global;

/// Adds bytes at the end.
fn add(out: &mut Vec<u8>, bytes: &[u8]) -> Result<(), NoMemory>
    ensures { OnOk result (out.new.items ≡ out.old.items ++ bytes.now) }
{
    Ok(out.extend_from_slice(bytes)?)
}

/// The word of a name space in `defined` and in an export list, as `structure`.
#[tactic(auto, unfolding(crate::specs::Printing::space_word))]
pub fn space_word(space: Namespace) -> &'static [u8]
    ensures { result.now ≡ space_word space }
{
    match space {
        Namespace::Structure => b"structure",
        Namespace::Signature => b"signature",
        Namespace::Functor => b"functor",
        Namespace::Funsig => b"funsig",
    }
}

/// An operator, with a space on each side.
#[tactic(auto, unfolding(crate::specs::Printing::operator_text))]
fn operator_text(operator: Operator) -> &'static [u8]
    ensures { result.now ≡ operator_text operator }
{
    match operator {
        Operator::Multiply => b" * ",
        Operator::Div => b" div ",
        Operator::Mod => b" mod ",
        Operator::Add => b" + ",
        Operator::Subtract => b" - ",
        Operator::Equal => b" = ",
        Operator::Unequal => b" <> ",
        Operator::Less => b" < ",
        Operator::LessEqual => b" <= ",
        Operator::Greater => b" > ",
        Operator::GreaterEqual => b" >= ",
        Operator::Andalso => b" andalso ",
        Operator::Orelse => b" orelse ",
    }
}

/// What stands before the name in `defined`.
#[tactic(auto, unfolding(crate::specs::Printing::defined_text))]
fn defined_text() -> &'static [u8]
    ensures { result.now ≡ defined_text }
{
    b"defined("
}

/// What stands before the part that `not` negates.
#[tactic(auto, unfolding(crate::specs::Printing::not_text))]
fn not_text() -> &'static [u8]
    ensures { result.now ≡ not_text }
{
    b"not "
}

/// Adds a number.
fn add_number(alloc: Global, out: &mut Vec<u8>, number: i64) -> Result<(), NoMemory>
    ensures { OnOk result (out.new.items ≡ out.old.items ++ signed_decimal number) }
{
    let digits = number.to_string(alloc)?;
    add(out, digits.as_bytes())
}

/// Adds a module behind its name space.
fn add_module(out: &mut Vec<u8>, wanted: &ModName) -> Result<(), NoMemory>
    ensures { OnOk result (out.new.items ≡ out.old.items ++ module_text wanted.now) }
{
    add(out, space_word(wanted.space))?;
    add(out, b" ")?;
    add(out, wanted.name.as_bytes())
}

/// Adds a condition.
#[cycle(printing)]
#[tactic(auto, using(crate::proofs::PrintingSteps::levels), unfolding(crate::specs::Printing::printed, crate::specs::Printing::printed_step))]
fn add_condition(alloc: Global, out: &mut Vec<u8>, cond: &Cond) -> Result<(), NoMemory>
    ensures { OnOk result (out.new.items ≡ out.old.items ++ printed cond.now) }
{
    match cond {
        Cond::Number(number) => add_number(alloc, out, *number),
        Cond::Name(name) => add(out, name.as_bytes()),
        Cond::Defined(name) => {
            add(out, defined_text())?;
            add(out, name.as_bytes())?;
            add(out, b")")
        }
        Cond::Provided(wanted) => {
            add(out, defined_text())?;
            add_module(out, wanted)?;
            add(out, b")")
        }
        Cond::Parens(inner) => {
            add(out, b"(")?;
            add_condition(alloc, out, inner.get())?;
            add(out, b")")
        }
        Cond::Not(inner) => {
            add(out, not_text())?;
            add_condition(alloc, out, inner.get())
        }
        Cond::Chain(first, steps) => {
            add_condition(alloc, out, first.get())?;
            add_steps(alloc, out, steps.as_slice())
        }
    }
}

/// Adds operators with their right sides.
#[cycle(printing)]
fn add_steps(alloc: Global, out: &mut Vec<u8>, steps: &[Step]) -> Result<(), NoMemory>
    ensures { OnOk result (out.new.items ≡ out.old.items ++ flat_map printed_step steps.now) }
{
    for step in steps {
        add_step(alloc, out, step)?;
    }
    Ok(())
}

/// Adds an operator with its right side.
#[cycle(printing)]
#[tactic(auto, unfolding(crate::specs::Printing::printed, crate::specs::Printing::printed_step))]
fn add_step(alloc: Global, out: &mut Vec<u8>, step: &Step) -> Result<(), NoMemory>
    ensures { OnOk result (out.new.items ≡ out.old.items ++ printed_step step.now) }
{
    let (operator, right) = match step {
        Step::Multiply(right) => (Operator::Multiply, right),
        Step::Div(right) => (Operator::Div, right),
        Step::Mod(right) => (Operator::Mod, right),
        Step::Add(right) => (Operator::Add, right),
        Step::Subtract(right) => (Operator::Subtract, right),
        Step::Equal(right) => (Operator::Equal, right),
        Step::Unequal(right) => (Operator::Unequal, right),
        Step::Less(right) => (Operator::Less, right),
        Step::LessEqual(right) => (Operator::LessEqual, right),
        Step::Greater(right) => (Operator::Greater, right),
        Step::GreaterEqual(right) => (Operator::GreaterEqual, right),
        Step::Andalso(right) => (Operator::Andalso, right),
        Step::Orelse(right) => (Operator::Orelse, right),
    };
    add(out, operator_text(operator))?;
    add_condition(alloc, out, right)
}

/// The text of a condition, as it was written but for its blanks and for zeros at the front of its numbers. It has no
/// line feed, and a condition that was read is read from it again.
pub fn print_condition(alloc: Global, cond: &Cond) -> Result<Text, NoMemory>
    ensures text { IfOk result (λ text. text ≡ printed cond.now) }
    ensures again { IfOk result (λ text. IsRead cond.now → IsPrinted text cond.now) }
{
    let mut out = Vec::new(alloc);
    add_condition(alloc, &mut out, cond)?;
    Ok(Text::from_vec(out))
}
