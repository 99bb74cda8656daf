//! What declarations of a unit's top level define.

ghost use Rattle.std.specs.Prelude.{◌≡◌, []};
ghost use Rattle.semantic_objects.specs.Environments.{empty_top};
ghost use Rattle.sml_modules.specs.Graphs.{Graph};
ghost use Rattle.module_scopes.specs.Tops.{defined_top, IsDefinedIn};

use name_trails::NameTrail;
use sml_modules::{EnvId, FunId, SigId};
use std::alloc::Global;

/// Structures, signatures, functors and signatures of functors by name, each kind in the order of the declarations. Of
/// two of one name the later counts. The Definition of Standard ML (Revised), section 5.1.
#[derive(Drop)]
pub struct Defined {
    pub structures: NameTrail<EnvId>,
    pub signatures: NameTrail<SigId>,
    pub functors: NameTrail<FunId>,
    pub funsigs: NameTrail<FunId>,
}

impl Defined {
    /// Nothing is defined yet. It takes no memory.
    pub fn new(alloc: Global) -> Defined
        ensures structures { result.structures ≡ [] }
        ensures signatures { result.signatures ≡ [] }
        ensures functors { result.functors ≡ [] }
        ensures funsigs { result.funsigs ≡ [] }
        ensures empty { (g : Graph) → defined_top g result ≡ empty_top }
        ensures there { (g : Graph) → IsDefinedIn g result }
    {
        Defined {
            structures: NameTrail::new(alloc),
            signatures: NameTrail::new(alloc),
            functors: NameTrail::new(alloc),
            funsigs: NameTrail::new(alloc),
        }
    }
}
