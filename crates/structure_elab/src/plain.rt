//! Declarations of the core in structures.

ghost use Rattle.bare_phrases.specs.PhraseOf.{dec_phrase};
ghost use Rattle.structure_elab.specs.Moments.{moment};
ghost use Rattle.structure_elab.specs.Ready.{IsReadyAt};
ghost use Rattle.structure_elab.specs.Phrases.{IsCore};

use cm_base::Fault;
use core_elab::elab_dec_in;
use core_scopes::Made;
use module_scopes::TopScope;
use pattern_elab::OwnVariable;
use sml_modules::EnvGraph;
use sml_trees::Dec;
use sml_types::TypeTable;
use std::alloc::Global;

/// What a declaration of the core makes in what is in scope. One of structures is answered as want of memory is.
/// The Definition of Standard ML (Revised), rule 56.
pub(crate) fn declare_core(
    alloc: Global,
    g: &mut EnvGraph,
    t: &mut TypeTable,
    top: &mut TopScope,
    dec: &Dec,
) -> Result<Made<OwnVariable>, Fault>
    requires { IsReadyAt (moment g.old t.old top.old) }
    ensures { IsCore (moment g.old t.old top.old) (dec_phrase dec.now) (moment g.new t.new top.new) result }
{
    elab_dec_in(alloc, g, t, &mut top.core, dec)
}
