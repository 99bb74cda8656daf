//! The phrase of a unit that is one structure.

use sml_trees::{BareUnit, Dec, Exp, StrExp, TopDec};

/// The declaration of `struct dec end`.
pub fn body_of(body: &StrExp) -> Option<&Dec> {
    match body {
        StrExp::Struct(dec, _) => Some(dec.get()),
        _ => None,
    }
}

/// The declarations of a structure binding of one structure.
fn of_structure(topdec: &TopDec) -> Option<&Dec> {
    let TopDec::Structures(binds, _) = topdec else {
        return None;
    };
    match binds.as_slice() {
        [bind] => body_of(&bind.body),
        _ => None,
    }
}

/// The declarations of a unit that is one structure.
pub fn declarations_of(unit: &BareUnit) -> Option<&Dec> {
    match unit.topdecs.as_slice() {
        [topdec] => of_structure(topdec),
        _ => None,
    }
}

/// The expression of a `val` of one binding.
fn of_val(dec: &Dec) -> Option<&Exp> {
    match dec {
        Dec::Val(_, rules, _, _) => match rules.as_slice() {
            [rule] => Some(&rule.exp),
            _ => None,
        },
        _ => None,
    }
}

/// The expression of a unit that is one structure with one variable.
pub fn expression_of(unit: &BareUnit) -> Option<&Exp> {
    match declarations_of(unit) {
        Some(Dec::Sequence(decs, _)) => match decs.as_slice() {
            [one] => of_val(one),
            _ => None,
        },
        _ => None,
    }
}
