//! Declarations of the top level.

ghost use Rattle.std.specs.Prelude.{◌≡◌, map};
ghost use Rattle.semantic_objects.specs.Environments.{empty_top};
ghost use Rattle.unit_semantics.specs.UnitPhrases.{top_phrase, read_top};
ghost use Rattle.module_scopes.specs.Tops.{defined_top};
ghost use Rattle.structure_elab.specs.Moments.{moment};
ghost use Rattle.top_bindings.specs.Ready.{IsReadyTop};
ghost use Rattle.module_elab.specs.Tops.{IsDefined, AreDefined};

use crate::ready::is_ready_top;
use cm_base::Fault;
use module_scopes::TopScope;
use name_trails::NameTrail;
use sml_modules::EnvGraph;
use sml_trees::TopDec;
use sml_types::TypeTable;
use std::alloc::Global;
use top_bindings::{elab_functors, elab_funsigs, elab_signatures, elab_structures};

/// A declaration of the top level; what it defines is in scope then. After a refusal the scope is of no use.
/// The Definition of Standard ML (Revised), rules 57, 66 and 85.
fn elab_top(
    alloc: Global,
    g: &mut EnvGraph,
    t: &mut TypeTable,
    top: &mut TopScope,
    sealing: bool,
    dec: &TopDec,
) -> Result<(), Fault>
    requires { IsReadyTop (moment g.old t.old top.old) }
    ensures { IsDefined (moment g.old t.old top.old) (read_top sealing (top_phrase dec.now)) (moment g.new t.new top.new)
        result }
{
    match dec {
        TopDec::Structures(binds, _) => {
            let mut made = NameTrail::new(alloc);
            elab_structures(alloc, g, t, top, sealing, binds.as_slice(), &mut made)?;
            top.define_structures(alloc, &made)?;
            Ok(())
        }
        TopDec::Signatures(binds, _) => {
            let mut made = NameTrail::new(alloc);
            elab_signatures(alloc, g, t, top, binds.as_slice(), &mut made)?;
            top.define_signatures(&made)?;
            Ok(())
        }
        TopDec::Functors(binds, _) => {
            let mut made = NameTrail::new(alloc);
            elab_functors(alloc, g, t, top, binds.as_slice(), &mut made)?;
            top.define_functors(&made)?;
            Ok(())
        }
        TopDec::Funsigs(binds, _) => {
            let mut made = NameTrail::new(alloc);
            elab_funsigs(alloc, g, t, top, binds.as_slice(), &mut made)?;
            top.define_funsigs(&made)?;
            Ok(())
        }
    }
}

/// Declarations, each in the scope after those before it.
/// The Definition of Standard ML (Revised), rules 87 to 89.
pub(crate) fn elab_tops(
    alloc: Global,
    g: &mut EnvGraph,
    t: &mut TypeTable,
    top: &mut TopScope,
    sealing: bool,
    decs: &[TopDec],
) -> Result<(), Fault>
    requires ready { IsReadyTop (moment g.old t.old top.old) }
    requires nothing { defined_top g.old top.old.defined ≡ empty_top }
    ensures { AreDefined (moment g.old t.old top.old) (map (read_top sealing) (map top_phrase decs.now))
        (moment g.new t.new top.new) result }
{
    for dec in decs {
        is_ready_top(g, t, top);
        elab_top(alloc, g, t, top, sealing, dec)?;
    }
    Ok(())
}
