//! The law, as a public function.

ghost use Rattle.interface_laws.specs.Promises.{InterfacesAreCanonical};

/// A top that can be written as an interface is its own canonical form: so bytes are an interface exactly where what
/// they say is written as these bytes again.
#[tactic(auto, using(crate::proofs::Tops::are_canonical))]
pub fn interfaces_are_canonical()
    ensures { InterfacesAreCanonical }
{}
