//! The built-in structures, as data.

ghost use Rattle.std.specs.Prelude.{◌≡◌};
ghost use Rattle.visibility.specs.BuiltIn.{is_basis_structure, is_built_in};

use cm_base::{ModName, Namespace};

/// Whether a name is that of a structure of the Basis Library which is built in.
#[tactic(auto, unfolding(crate::specs::BuiltIn::is_basis_structure))]
fn is_basis_structure(name: &[u8]) -> bool
    ensures { result ≡ is_basis_structure name.now }
{
    name == b"Int".as_slice() || name == b"String".as_slice() || name == b"Char".as_slice()
}

/// Whether a module is one of the structures that each source sees, unless its options hide them. No signature, functor
/// or funsig is.
pub fn is_built_in(name: &ModName) -> bool
    ensures { result ≡ is_built_in name.now }
{
    match name.space {
        Namespace::Structure => is_basis_structure(name.name.as_bytes()),
        Namespace::Signature | Namespace::Functor | Namespace::Funsig => false,
    }
}
