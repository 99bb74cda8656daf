//! Signatures by name.

ghost use Rattle.std.specs.Prelude.{◌≡◌, IfOk};
ghost use Rattle.type_nodes.specs.Tables.{Table};
ghost use Rattle.sml_modules.specs.Graphs.{signature_of, HasSigParts};
ghost use Rattle.static_semantics.specs.Inferring.{Scope as Inner};
ghost use Rattle.type_phrases.specs.Inferred.{Answers, progress};
ghost use Rattle.module_scopes.specs.Tops.{top_seen, IsTopScope};
ghost use Rattle.signature_parts.specs.Ending.{used};
ghost use Rattle.signature_parts.specs.Growing.{Grows};

use cm_base::Fault;
use module_scopes::TopScope;
use signature_sealing::open_signature;
use sml_modules::{EnvGraph, SigParts};
use sml_trees::Name;
use std::alloc::Global;
use type_phrases::unknown_name;

/// A signature in scope by its name, with new type names of the unit for those that it binds, in their order: 30 at a
/// name that stands for no signature. Each use makes names of its own. After want of memory names may have been made.
/// The Definition of Standard ML (Revised), rule 63.
#[tactic(auto, using(crate::proofs::Elaborated::grows_self, crate::proofs::Opening::grows_may, crate::proofs::Opening::grows_opened))]
pub fn use_signature(
    alloc: Global,
    g: &mut EnvGraph,
    top: &TopScope,
    name: &Name,
) -> Result<SigParts, Fault>
    requires { IsTopScope g.old top.now }
    ensures infers { (inner : Inner) (t : Table) → inner.home ≡ g.old.home
        → Answers (used (top_seen g.old top.now).signatures inner name.now (progress t g.old))
        (λ parts. (signature_of g.new parts, progress t g.new)) result }
    ensures there { IfOk result (HasSigParts g.new) }
    ensures grows { Grows g.old g.new }
{
    match top.find_signature(g, &name.text)? {
        Some(sig) => Ok(open_signature(g, sig)?),
        None => Err(unknown_name(alloc, g, name)),
    }
}
