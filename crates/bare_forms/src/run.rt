//! Runs of operands and infix operators: each operator takes the operands that its strength and its side give it.

ghost use Rattle.std.specs.Prelude.{◌≡◌, IfOk, reverse};
ghost use Rattle.bare_forms.specs.Runs as spec;

use crate::name::copy_name;
use cm_base::NoMemory;
use sml_trees::{Fixity, Name};
use std::alloc::Global;

/// An infix operator, with its fixity where it stands.
#[derive(Drop)]
pub struct Infix {
    pub name: Name,
    pub fixity: Fixity,
}

/// An infix operator by its name.
pub fn operator_of(name: &Name, fixity: Fixity) -> Result<Infix, NoMemory>
    ensures { IfOk result (λ made. made ≡ record { name = name.now; fixity = fixity }) }
{
    Ok(Infix {
        name: copy_name(name)?,
        fixity,
    })
}

impl Infix {
    /// Whether the operator is of this strength and binds from the right.
    fn is_from_right(&self, strength: u8) -> bool
        ensures { result ≡ spec.is_from_right strength self.now }
    {
        self.fixity.strength == strength && self.fixity.right
    }

    /// Whether the operator is of this strength and binds from the left.
    fn is_from_left(&self, strength: u8) -> bool
        ensures { result ≡ spec.is_from_left strength self.now }
    {
        self.fixity.strength == strength && !self.fixity.right
    }
}

/// What an infix operator may stand between.
pub trait Operand: Drop {
    ghost use Rattle.sml_trees.specs.declared.name.Name.{Name};

    ghost joined: { Name → Self → Self → Self };

    /// An operator with its two operands.
    fn join(alloc: Global, operator: Name, left: Self, right: Self) -> Result<Self, NoMemory>
        ensures { IfOk result (λ made. made ≡ joined operator left right) };
}

/// Gives the operators of a strength that bind from the right their operands. What comes after the first operand
/// stands in reverse.
#[tactic(auto, using(crate::proofs::Bound::right_steps))]
fn bind_right<A: Operand>(
    alloc: Global,
    strength: u8,
    mut before: Vec<(A, Infix)>,
    last: A,
) -> Result<(A, Vec<(Infix, A)>), NoMemory>
    ensures first { IfOk result (λ made. made.0 ≡ (spec.bind_right A.joined strength before.items last).first) }
    ensures after { IfOk result
        (λ made. reverse made.1.items ≡ (spec.bind_right A.joined strength before.items last).after) }
{
    let mut after = Vec::new(alloc);
    let mut first = last;
    while let Some((operand, operator)) = before.pop() {
        if operator.is_from_right(strength) {
            first = A::join(alloc, operator.name, operand, first)?;
        } else {
            after.push((operator, first))?;
            first = operand;
        }
    }
    Ok((first, after))
}

/// Gives the operators of a strength that bind from the left their operands. What comes after the first operand
/// stands in reverse.
#[tactic(auto, using(crate::proofs::Bound::left_steps))]
fn bind_left<A: Operand>(
    alloc: Global,
    strength: u8,
    first: A,
    mut after: Vec<(Infix, A)>,
) -> Result<(Vec<(A, Infix)>, A), NoMemory>
    ensures before { IfOk result
        (λ made. made.0.items ≡ (spec.bind_left A.joined strength first (reverse after.items)).before) }
    ensures last { IfOk result
        (λ made. made.1 ≡ (spec.bind_left A.joined strength first (reverse after.items)).last) }
{
    let mut before = Vec::new(alloc);
    let mut last = first;
    while let Some((operator, operand)) = after.pop() {
        if operator.is_from_left(strength) {
            last = A::join(alloc, operator.name, last, operand)?;
        } else {
            before.push((last, operator))?;
            last = operand;
        }
    }
    Ok((before, last))
}

/// Gives all operators their operands, from the strongest to the weakest.
#[tactic(auto, unfolding(crate::specs::Runs::bind_all))]
pub fn bind_all<A: Operand>(alloc: Global, before: Vec<(A, Infix)>, last: A) -> Result<A, NoMemory>
    ensures { IfOk result (λ made. made ≡ spec.bind_all A.joined before.items last) }
{
    let mut before = before;
    let mut last = last;
    let mut strength = 10u8;
    while strength > 0 {
        strength -= 1;
        let (first, after) = bind_right(alloc, strength, before, last)?;
        (before, last) = bind_left(alloc, strength, first, after)?;
    }
    Ok(last)
}
