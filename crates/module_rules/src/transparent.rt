//! Transparent signatures.

ghost use Rattle.std.specs.Prelude.{◌≡◌, IfOk};
ghost use Rattle.sml_modules.specs.Graphs.{env_at, signature_at, HasEnv, HasSignature};
ghost use Rattle.static_semantics.specs.Inferring.{Scope};
ghost use Rattle.type_phrases.specs.Inferred.{Answers, progress};
ghost use Rattle.structure_matching.specs.Matches.{StaysGraph};
ghost use Rattle.unit_semantics.specs.StructureInference.{transparent};

use crate::place::place_of;
use cm_base::Fault;
use sml_modules::{EnvGraph, EnvId, SigId};
use sml_trees::At;
use sml_types::TypeTable;
use structure_matching::matches;

/// What a structure is under a transparent signature, which it matches as it is known, at a place: the signature's
/// environment, realised. It is refused as matching is. The table is as before, and no name is made.
/// The Definition of Standard ML (Revised), rule 52.
#[tactic(auto, using(crate::proofs::Growing::stays_none))]
pub fn match_structure(
    g: &mut EnvGraph,
    t: &mut TypeTable,
    at: At,
    env: EnvId,
    sig: SigId,
) -> Result<EnvId, Fault>
    requires env { HasEnv g.old env }
    requires sig { HasSignature g.old sig }
    ensures answers { (inner : Scope) → inner.home ≡ g.old.home
        → Answers (transparent inner at (env_at g.old env) (signature_at g.old sig, progress t.old g.old))
        (λ made. (env_at g.new made, progress t.new g.new)) result }
    ensures there { IfOk result (HasEnv g.new) }
    ensures graph { StaysGraph g.old g.new }
    ensures table { t.new ≡ t.old }
{
    let place = place_of(g, at)?;
    matches(g, t, &place, env, sig)
}
