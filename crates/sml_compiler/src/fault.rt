//! Why a source or a unit was refused, as a compiler tells it.

ghost use Rattle.std.specs.Prelude.{◌≡◌};
ghost use Rattle.sml_compiler.specs.Front.{told};

use cm_base::{CompileFault, Fault};

/// The same fault, as a compiler tells it.
pub(crate) fn told(fault: Fault) -> CompileFault
    ensures { result ≡ told fault }
{
    match fault {
        Fault::Diag(diag) => CompileFault::Diag(diag),
        Fault::NoMemory => CompileFault::NoMemory,
    }
}
