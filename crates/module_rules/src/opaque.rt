//! Opaque signatures.

ghost use Rattle.std.specs.Prelude.{◌≡◌, IfOk};
ghost use Rattle.sml_modules.specs.Graphs.{env_at, signature_at, HasEnv, HasSignature};
ghost use Rattle.static_semantics.specs.Inferring.{Scope};
ghost use Rattle.type_phrases.specs.Inferred.{Answers, progress};
ghost use Rattle.unit_semantics.specs.StructureInference.{opaque};
ghost use Rattle.module_rules.specs.Results.{Grows};

use crate::place::place_of;
use cm_base::Fault;
use signature_sealing::seal;
use sml_modules::{EnvGraph, EnvId, SigId};
use sml_trees::At;
use sml_types::TypeTable;
use structure_matching::matches;

/// What a structure is under an opaque signature, which it matches as it is known, at a place: the signature's
/// environment, with new names of the unit for those that the signature binds, in the order of its list. It is refused
/// as matching is. The table is as before. After want of memory names may have been made.
/// The Definition of Standard ML (Revised), rule 53.
#[tactic(auto, using(crate::proofs::Growing::grows_none, crate::proofs::Growing::grows_stays))]
pub fn seal_structure(
    g: &mut EnvGraph,
    t: &mut TypeTable,
    at: At,
    env: EnvId,
    sig: SigId,
) -> Result<EnvId, Fault>
    requires env { HasEnv g.old env }
    requires sig { HasSignature g.old sig }
    ensures answers { (inner : Scope) → inner.home ≡ g.old.home
        → Answers (opaque inner at (env_at g.old env) (signature_at g.old sig, progress t.old g.old))
        (λ made. (env_at g.new made, progress t.new g.new)) result }
    ensures there { IfOk result (HasEnv g.new) }
    ensures graph { Grows g.old g.new }
    ensures table { t.new ≡ t.old }
{
    let place = place_of(g, at)?;
    matches(g, t, &place, env, sig)?;
    let made = seal(g, sig)?;
    Ok(made)
}
