//! Names that no constructor and no exception may have.

ghost use Rattle.std.specs.Prelude.{◌≡◌};
ghost use Rattle.static_semantics.specs.BasicTypes.{reserved_constructors, is_one_of};

use cm_base::Text;
use pattern_elab::is_reserved;

/// Whether no constructor of a datatype and no exception may have this name: `it` and the names that no pattern binds.
pub(crate) fn is_reserved_constructor(name: &Text) -> bool
    ensures { result ≡ is_one_of reserved_constructors name.now }
{
    name.as_bytes() == b"it".as_slice() || is_reserved(name)
}
