//! The laws, as public functions.

ghost use Rattle.restoring_laws.specs.Numbers.{NumberedNamesAgree};
ghost use Rattle.restoring_laws.specs.Promises.{InterfacesAreRead, InterfacesGoBack};

/// Bytes are an interface exactly where they are the mark and the node of a top that can be written, and there is one
/// top of that node.
#[tactic(auto, using(crate::proofs::Reading::are_read))]
pub fn interfaces_are_read()
    ensures { InterfacesAreRead }
{}

/// What an interface says is written as that interface again, and the interface of a canonical form says that form.
#[tactic(auto, using(crate::proofs::Reading::go_back))]
pub fn interfaces_go_back()
    ensures { InterfacesGoBack }
{}

/// Names that are numbered by first occurrence agree on arity and equality, so that this is asked of other names alone.
#[tactic(auto, using(crate::proofs::Numbered::names_agree))]
pub fn numbered_names_agree()
    ensures { NumberedNamesAgree }
{}
