//! What a declaration of the top level defines comes into scope.

ghost use Rattle.std.specs.Prelude.{◌≡◌, ◌++◌, [], OnOk};
ghost use Rattle.sml_modules.specs.Graphs.{Graph};
ghost use Rattle.core_scopes.specs.Scopes.{AreEnvs};
ghost use Rattle.unit_semantics.specs.UnitInference.{top_of_env, top_of_signatures, top_of_functors, top_of_funsigs};
ghost use Rattle.module_scopes.specs.Tops.{structures_env, signatures_over, functors_over, AreSignatures, AreFunctors};
ghost use Rattle.module_scopes.specs.Stays.{Defines};

use crate::binding::enter_structures;
use crate::top::TopScope;
use cm_base::NoMemory;
use name_trails::NameTrail;
use sml_modules::{EnvId, FunId, SigId};
use std::alloc::Global;

/// Binds all that rows bind behind others. After want of memory some of it may be bound.
fn bind_all<T: Copy + Drop>(rows: &mut NameTrail<T>, more: &NameTrail<T>) -> Result<(), NoMemory>
    ensures { OnOk result (rows.new ≡ rows.old ++ more.now) }
{
    for row in more.rows() {
        rows.bind(row.0.copy()?, row.1)?;
    }
    Ok(())
}

impl TopScope {
    /// Structures are defined. After want of memory some of them may be in scope.
    /// The Definition of Standard ML (Revised), rule 87.
    pub fn define_structures(
        &mut self,
        alloc: Global,
        made: &NameTrail<EnvId>,
    ) -> Result<(), NoMemory>
        ensures { OnOk result ((g : Graph) → AreEnvs g made.now
            → Defines g (top_of_env (structures_env g made.now)) self.old self.new) }
    {
        enter_structures(alloc, &mut self.core, made)?;
        bind_all(&mut self.defined.structures, made)
    }

    /// Signatures are defined. After want of memory some of them may be in scope.
    /// The Definition of Standard ML (Revised), rule 88.
    pub fn define_signatures(&mut self, made: &NameTrail<SigId>) -> Result<(), NoMemory>
        ensures { OnOk result ((g : Graph) → AreSignatures g made.now
            → Defines g (top_of_signatures (signatures_over g made.now [])) self.old self.new) }
    {
        bind_all(&mut self.defined.signatures, made)
    }

    /// Functors are defined. After want of memory some of them may be in scope.
    /// The Definition of Standard ML (Revised), rule 89.
    pub fn define_functors(&mut self, made: &NameTrail<FunId>) -> Result<(), NoMemory>
        ensures { OnOk result ((g : Graph) → AreFunctors g made.now
            → Defines g (top_of_functors (functors_over g made.now [])) self.old self.new) }
    {
        bind_all(&mut self.defined.functors, made)
    }

    /// Signatures of functors are defined. After want of memory some of them may be in scope.
    pub fn define_funsigs(&mut self, made: &NameTrail<FunId>) -> Result<(), NoMemory>
        ensures { OnOk result ((g : Graph) → AreFunctors g made.now
            → Defines g (top_of_funsigs (functors_over g made.now [])) self.old self.new) }
    {
        bind_all(&mut self.defined.funsigs, made)
    }
}
