//! The laws of interfaces, as calls that do nothing.

ghost use Rattle.interface_format.specs.Examples.{TopsAreSpelled};
ghost use Rattle.interface_format.specs.Laws.{InterfacesAreOne};

/// A top that can be written has one spelling, and its bytes say which top it is.
#[tactic(auto, using(crate::proofs::Once::are_one))]
pub fn interfaces_are_one()
    ensures { InterfacesAreOne }
{}

/// Two units have the interfaces that are written out in bytes by hand.
#[tactic(auto, using(crate::proofs::Examples::are_spelled))]
pub fn tops_are_spelled()
    ensures { TopsAreSpelled }
{}
