//! Structures of the top level.

ghost use Rattle.std.specs.Prelude.{map};
ghost use Rattle.sml_modules.specs.Graphs.{HasEnv};
ghost use Rattle.module_scopes.specs.Tops.{AllRows};
ghost use Rattle.structure_elab.specs.Moments.{moment};
ghost use Rattle.top_bindings.specs.Ready.{IsReadyTop};
ghost use Rattle.top_bindings.specs.Bindings.{read_bind, IsStructureBound, IsStructureRow, AreStructureRows};

use crate::ready::{is_ready, is_ready_top};
use cm_base::Fault;
use known_environments::without_variables;
use module_scopes::{TopScope, check_structure};
use name_trails::NameTrail;
use sml_modules::{EnvGraph, EnvId};
use sml_trees::StrBind;
use sml_types::TypeTable;
use std::alloc::Global;
use structure_elab::elab_read;

/// A structure, with everything put in: 42 at its name where a type variable is left.
fn elab_structure(
    alloc: Global,
    g: &mut EnvGraph,
    t: &mut TypeTable,
    top: &mut TopScope,
    sealing: bool,
    bind: &StrBind,
) -> Result<EnvId, Fault>
    requires { IsReadyTop (moment g.old t.old top.old) }
    ensures { IsStructureBound (moment g.old t.old top.old) (read_bind sealing bind.now) (moment g.new t.new top.new)
        result }
{
    is_ready(g, t, top);
    let made = elab_read(alloc, g, t, top, sealing, &bind.body)?;
    without_variables(alloc, g, t, &bind.name, made)
}

/// One structure behind others: 40 at a name that an earlier one has.
fn bind_structure(
    alloc: Global,
    g: &mut EnvGraph,
    t: &mut TypeTable,
    top: &mut TopScope,
    sealing: bool,
    bind: &StrBind,
    made: &mut NameTrail<EnvId>,
) -> Result<(), Fault>
    requires ready { IsReadyTop (moment g.old t.old top.old) }
    requires made { AllRows (HasEnv g.old) made.old }
    ensures { IsStructureRow (moment g.old t.old top.old) (read_bind sealing bind.now) made.old made.new
        (moment g.new t.new top.new) result }
{
    check_structure(alloc, g, made, &bind.name)?;
    let env = elab_structure(alloc, g, t, top, sealing, bind)?;
    made.bind(bind.name.text.copy()?, env)?;
    Ok(())
}

/// The structures of a declaration behind others, each in what is in scope before the declaration, which is left as it
/// was; after a refusal it is of no use. With the option that seals, a `:` that is outermost on a right side is read as
/// `:>`. The first of 30 to 38 and 40 to 42 is answered, and then some of it may be known.
/// The Definition of Standard ML (Revised), rules 57, 61 and 87.
pub fn elab_structures(
    alloc: Global,
    g: &mut EnvGraph,
    t: &mut TypeTable,
    top: &mut TopScope,
    sealing: bool,
    binds: &[StrBind],
    made: &mut NameTrail<EnvId>,
) -> Result<(), Fault>
    requires ready { IsReadyTop (moment g.old t.old top.old) }
    requires made { AllRows (HasEnv g.old) made.old }
    ensures { AreStructureRows (moment g.old t.old top.old) (map (read_bind sealing) binds.now) made.old made.new
        (moment g.new t.new top.new) result }
{
    for bind in binds {
        is_ready_top(g, t, top);
        bind_structure(alloc, g, t, top, sealing, bind, made)?;
    }
    Ok(())
}
