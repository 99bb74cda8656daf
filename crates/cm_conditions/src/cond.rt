//! Conditions as trees.

use cm_base::{Boxed, List, ModName, Text};

/// A condition: one variant for each kind of atom, `not`, and chains of operators. However many operators stand in a
/// chain, the tree is no deeper for it.
#[derive(Debug, Drop)]
#[cycle(tree)]
pub enum Cond {
    /// A number, from 0 on where it was written.
    Number(i64),
    /// A name that a definition may give a value.
    Name(Text),
    /// `defined(NAME)`: whether there is a definition of the name.
    Defined(Text),
    /// `defined(NS NAME)`: whether a module is there.
    Provided(ModName),
    /// A condition in parentheses.
    Parens(Boxed<Cond>),
    Not(Boxed<Cond>),
    /// A first side, and the operators behind it from the left to the right. The left side of each of them is all that
    /// stands before it in the chain.
    Chain(Boxed<Cond>, List<Step>),
}

/// An operator with its right side: one variant for each operator between two sides.
#[derive(Debug, Drop)]
#[cycle(tree)]
pub enum Step {
    Multiply(Cond),
    Div(Cond),
    Mod(Cond),
    Add(Cond),
    Subtract(Cond),
    Equal(Cond),
    Unequal(Cond),
    Less(Cond),
    LessEqual(Cond),
    Greater(Cond),
    GreaterEqual(Cond),
    Andalso(Cond),
    Orelse(Cond),
}
