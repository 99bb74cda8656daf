//! The scope of a unit's top level.

ghost use Rattle.std.specs.Prelude.{◌≡◌, IfOk};
ghost use Rattle.semantic_objects.specs.Tables.{entry};
ghost use Rattle.semantic_objects.specs.Environments.{empty_top};
ghost use Rattle.sml_modules.specs.Graphs.{env_at, top_at, HasEnv, HasTop, FindsSignature, FindsFunctor};
ghost use Rattle.name_trails.specs.Trails.{last_entry};
ghost use Rattle.core_scopes.specs.Scopes.{AreBare};
ghost use Rattle.pattern_elab.specs.Scopes.{scope_of};
ghost use Rattle.unit_semantics.specs.StructureInference.{core_scope};
ghost use Rattle.unit_semantics.specs.UnitInference.{with_given};
ghost use Rattle.module_scopes.specs.Tops.{defined_top, top_seen, IsTopScope};

use crate::defined::Defined;
use cm_base::{NoMemory, Text};
use core_scopes::Scope;
use pattern_elab::CoreScope;
use sml_modules::{EnvGraph, EnvId, FunId, SigId, TopId};
use std::alloc::Global;

/// What is in scope at the top level of a unit: the scope of its environment for phrases of the core, the top from which
/// further signatures and functors come, and what was defined over these so far.
/// The Definition of Standard ML (Revised), section 5.1.
#[derive(Drop)]
pub struct TopScope {
    pub core: CoreScope,
    pub given: TopId,
    pub defined: Defined,
}

impl TopScope {
    /// What is in scope at a unit's beginning: the basis with what is given in front. No table has anything of it.
    pub fn new(
        alloc: Global,
        g: &EnvGraph,
        basis: EnvId,
        given: TopId,
    ) -> Result<TopScope, NoMemory>
        requires basis { HasEnv g.now basis }
        requires given { HasTop g.now given }
        ensures seen { IfOk result (λ top.
            top_seen g.now top ≡ with_given (env_at g.now basis) (top_at g.now given)) }
        ensures core { IfOk result (λ top.
            scope_of g.now top.core ≡ core_scope g.now.home (with_given (env_at g.now basis) (top_at g.now given))) }
        ensures defined { IfOk result (λ top. defined_top g.now top.defined ≡ empty_top) }
        ensures bare { IfOk result (λ top. AreBare top.core) }
        ensures there { IfOk result (IsTopScope g.now) }
    {
        let env = g.env_of(given)?;
        let mut core = Scope::new(alloc, basis);
        core.open_env(g, env)?;
        Ok(TopScope {
            core,
            given,
            defined: Defined::new(alloc),
        })
    }

    /// The signature that was defined under a name.
    fn defined_signature(&self, name: &Text) -> Option<SigId>
        ensures { result ≡ last_entry self.now.defined.signatures name.now }
    {
        match self.defined.signatures.find(name) {
            Some(sig) => Some(*sig),
            None => None,
        }
    }

    /// The functor that was defined under a name.
    fn defined_functor(&self, name: &Text) -> Option<FunId>
        ensures { result ≡ last_entry self.now.defined.functors name.now }
    {
        match self.defined.functors.find(name) {
            Some(fun) => Some(*fun),
            None => None,
        }
    }

    /// The signature of that name.
    pub fn find_signature(&self, g: &EnvGraph, name: &Text) -> Result<Option<SigId>, NoMemory>
        requires { IsTopScope g.now self.now }
        ensures { IfOk result (FindsSignature g.now (entry name.now (top_seen g.now self.now).signatures)) }
    {
        match self.defined_signature(name) {
            Some(sig) => Ok(Some(sig)),
            None => g.find_signature(self.given, name),
        }
    }

    /// The functor of that name.
    pub fn find_functor(&self, g: &EnvGraph, name: &Text) -> Result<Option<FunId>, NoMemory>
        requires { IsTopScope g.now self.now }
        ensures { IfOk result (FindsFunctor g.now (entry name.now (top_seen g.now self.now).functors)) }
    {
        match self.defined_functor(name) {
            Some(fun) => Ok(Some(fun)),
            None => g.find_functor(self.given, name),
        }
    }
}
