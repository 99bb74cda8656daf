//! What holds of the grammar of the core, whoever reads a text.

ghost use Rattle.infix_names.specs.Operators.{ClashesByRule};

/// A run is refused at an operator exactly where one of equal strength and the other side stands before it, with only
/// stronger ones between them (The Definition of Standard ML, section 2.6). So the operators that a reader keeps are
/// enough to know it.
#[tactic(auto, using(crate::proofs::OperatorLaws::clashes_by_rule))]
pub fn operators_clash_by_rule()
    ensures { ClashesByRule }
{}
