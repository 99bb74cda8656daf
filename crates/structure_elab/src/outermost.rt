//! Structure expressions that are read with the option that seals.

ghost use Rattle.bare_phrases.specs.PhraseOf.{str_phrase};
ghost use Rattle.unit_semantics.specs.UnitPhrases.{module_phrase, read_module};
ghost use Rattle.structure_elab.specs.Moments.{moment};
ghost use Rattle.structure_elab.specs.Ready.{IsReadyAt};
ghost use Rattle.structure_elab.specs.Phrases.{IsModule};
ghost use Rattle.std.specs.Prelude.{true};

use crate::phrase::elab_str;
use crate::places::place_of_str;
use crate::signatures::seal;
use cm_base::Fault;
use module_scopes::TopScope;
use sml_modules::{EnvGraph, EnvId};
use sml_trees::StrExp;
use sml_types::TypeTable;
use std::alloc::Global;

/// What a structure expression stands for where a `:` that is outermost in it is read as `:>`.
fn elab_sealed(
    alloc: Global,
    g: &mut EnvGraph,
    t: &mut TypeTable,
    top: &mut TopScope,
    str: &StrExp,
) -> Result<EnvId, Fault>
    requires { IsReadyAt (moment g.old t.old top.old) }
    ensures { IsModule (moment g.old t.old top.old) (read_module true (module_phrase (str_phrase str.now)))
        (moment g.new t.new top.new) result }
{
    match str {
        StrExp::Struct(_, _) => elab_str(alloc, g, t, top, str),
        StrExp::Named(_, _) => elab_str(alloc, g, t, top, str),
        StrExp::Transparent(inner, sig, _) => {
            let env = elab_str(alloc, g, t, top, inner.get())?;
            seal(alloc, g, t, top, place_of_str(inner.get()), env, sig)
        }
        StrExp::Opaque(_, _, _) => elab_str(alloc, g, t, top, str),
        StrExp::Functor(_, _, _) => elab_str(alloc, g, t, top, str),
        StrExp::Within(_, _, _) => elab_str(alloc, g, t, top, str),
    }
}

/// What a structure expression stands for in what is in scope, which is left as it was; after a refusal it is of no use.
/// With the option that seals, a `:` that is outermost in it is read as `:>`.
pub fn elab_read(
    alloc: Global,
    g: &mut EnvGraph,
    t: &mut TypeTable,
    top: &mut TopScope,
    sealing: bool,
    str: &StrExp,
) -> Result<EnvId, Fault>
    requires { IsReadyAt (moment g.old t.old top.old) }
    ensures { IsModule (moment g.old t.old top.old) (read_module sealing (module_phrase (str_phrase str.now)))
        (moment g.new t.new top.new) result }
{
    if sealing {
        elab_sealed(alloc, g, t, top, str)
    } else {
        elab_str(alloc, g, t, top, str)
    }
}
