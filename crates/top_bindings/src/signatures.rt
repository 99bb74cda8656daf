//! Signatures that have names.

ghost use Rattle.std.specs.Prelude.{map};
ghost use Rattle.unit_semantics.specs.UnitPhrases.{sig_bind_phrase};
ghost use Rattle.module_scopes.specs.Tops.{AreSignatures};
ghost use Rattle.structure_elab.specs.Moments.{moment};
ghost use Rattle.top_bindings.specs.Ready.{IsReadyTop};
ghost use Rattle.top_bindings.specs.Bindings.{IsSignatureRow, AreSignatureRows};

use crate::ready::is_ready_top;
use cm_base::Fault;
use module_scopes::{TopScope, check_signature};
use name_trails::NameTrail;
use sml_modules::{EnvGraph, SigId};
use sml_trees::SigBind;
use sml_types::TypeTable;
use std::alloc::Global;
use structure_elab::signature_in;

/// One signature behind others: 40 at a name that an earlier one has.
fn bind_signature(
    alloc: Global,
    g: &mut EnvGraph,
    t: &mut TypeTable,
    top: &mut TopScope,
    bind: &SigBind,
    made: &mut NameTrail<SigId>,
) -> Result<(), Fault>
    requires ready { IsReadyTop (moment g.old t.old top.old) }
    requires made { AreSignatures g.old made.old }
    ensures { IsSignatureRow (moment g.old t.old top.old) (sig_bind_phrase bind.now) made.old made.new
        (moment g.new t.new top.new) result }
{
    check_signature(alloc, g, made, &bind.name)?;
    let sig = signature_in(alloc, g, t, top, &bind.sig)?;
    made.bind(bind.name.text.copy()?, sig)?;
    Ok(())
}

/// The signatures of a declaration behind others, each in what is in scope before the declaration, which is left as it
/// was; after a refusal it is of no use. The first of 30, 33, 35, 37 and 40 is answered.
/// The Definition of Standard ML (Revised), rules 66 and 67.
pub fn elab_signatures(
    alloc: Global,
    g: &mut EnvGraph,
    t: &mut TypeTable,
    top: &mut TopScope,
    binds: &[SigBind],
    made: &mut NameTrail<SigId>,
) -> Result<(), Fault>
    requires ready { IsReadyTop (moment g.old t.old top.old) }
    requires made { AreSignatures g.old made.old }
    ensures { AreSignatureRows (moment g.old t.old top.old) (map sig_bind_phrase binds.now) made.old made.new
        (moment g.new t.new top.new) result }
{
    for bind in binds {
        is_ready_top(g, t, top);
        bind_signature(alloc, g, t, top, bind, made)?;
    }
    Ok(())
}
