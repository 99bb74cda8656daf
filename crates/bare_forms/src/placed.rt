//! Bare trees with the places where they are written, and what they are gathered in.

use cm_base::List;
use sml_trees::{At, Exp, Name, Pat, Rule, StrExp};

/// A pattern, and the place where it is written with the parentheses around it.
#[derive(Drop)]
pub struct PlacedPat {
    pub at: At,
    pub pat: Pat,
}

/// An expression, and the place where it is written with the parentheses around it.
#[derive(Drop)]
pub struct PlacedExp {
    pub at: At,
    pub exp: Exp,
}

/// A structure expression, and the place where it is written.
#[derive(Drop)]
pub struct PlacedStr {
    pub at: At,
    pub str: StrExp,
}

/// A binding of a `val`, with the number of times that `rec` stands before it.
#[derive(Drop)]
pub struct CountedRule {
    pub recs: u32,
    pub rule: Rule,
}

/// A clause of a function: its name, its arguments, and its body with the type.
#[derive(Drop)]
pub struct BareClause {
    pub name: Name,
    pub args: List<PlacedPat>,
    pub body: Exp,
    pub at: At,
}
