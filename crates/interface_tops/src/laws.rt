//! The laws, as public functions.

ghost use Rattle.interface_tops.specs.Promises.{InterfacesHaveTops};

/// The function gives a top exactly where the bytes are an interface of it.
#[tactic(auto, using(crate::proofs::Tops::have_tops))]
pub fn interfaces_have_tops()
    ensures { InterfacesHaveTops }
{}
