//! What holds where a phrase is looked at, for the proofs of callers. None of these calls does anything.

ghost use Rattle.core_scopes.specs.Scopes.{AreEnvs};
ghost use Rattle.module_scopes.specs.Tops.{IsTopScope};
ghost use Rattle.signature_elab.specs.Phrases.{IsReadyIn};

use module_scopes::TopScope;
use signature_specs::Specified;
use sml_modules::EnvGraph;

/// What is in scope, and the structures that are specified, are of the graph.
pub(crate) fn is_ready(g: &EnvGraph, made: &Specified, top: &TopScope)
    requires ready { IsTopScope g.now top.now }
    requires envs { AreEnvs g.now made.now.structures }
    ensures ready { IsTopScope g.now top.now }
    ensures envs { AreEnvs g.now made.now.structures }
{}

/// .. and what is specified so far is in scope.
pub(crate) fn is_ready_in(g: &EnvGraph, made: &Specified, top: &TopScope)
    requires { IsReadyIn g.now made.now top.now }
    ensures { IsReadyIn g.now made.now top.now }
{}
