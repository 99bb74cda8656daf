//! Whether an environment matches a signature.

ghost use Rattle.std.specs.Prelude.{◌≡◌, IfOk};
ghost use Rattle.realisation.specs.Realised.{realised};
ghost use Rattle.type_nodes.specs.Tables.{state};
ghost use Rattle.type_walks.specs.Replaced.{put_by, rows_of};
ghost use Rattle.sml_modules.specs.Graphs.{env_at, signature_at, signature_of};
ghost use Rattle.sml_modules.specs.Graphs.{HasEnv, HasSignature, HasSigParts, GivesEnv};
ghost use Rattle.static_semantics.specs.Inferring.{Scope};
ghost use Rattle.static_semantics.specs.EnvironmentsPut.{put_env};
ghost use Rattle.module_semantics.specs.Matching.{matching, matched};
ghost use Rattle.type_phrases.specs.Inferred.{Answers};
ghost use Rattle.structure_matching.specs.Searching.{at_of};
ghost use Rattle.structure_matching.specs.Matches.{IsMatched, IsMatchedBy, StaysGraph};

use crate::enriching::enrich_env;
use crate::parts::EnvPair;
use crate::realisation_search::{LEVELS, find_realisation};
use cm_base::{Fault, List, Place};
use environment_walks::{Realisation, realise};
use matched_pairs::Pairs;
use sml_modules::{EnvGraph, EnvId, SigId, SigParts};
use sml_types::TypeTable;

/// An environment of a signature that is matched, and the realisation by which it is.
#[derive(Drop)]
pub struct Matched {
    pub env: EnvId,
    pub by: Realisation,
}

/// The same of the parts of a signature.
fn match_parts(
    g: &mut EnvGraph,
    t: &mut TypeTable,
    at: &Place,
    env: EnvId,
    parts: &SigParts,
) -> Result<Matched, Fault>
    requires env { HasEnv g.old env }
    requires parts { HasSigParts g.old parts.now }
    ensures answers { (inner : Scope) → inner.home ≡ at.now.file
        → Answers (matching inner (at_of at.now) (state t.old) (put_env (state t.old).stands (env_at g.old env))
        (signature_of g.old parts.now)) (λ made. rows_of made.by.list) result }
    ensures gives { IfOk result (λ made. GivesEnv g.old g.new
        (realised (put_by made.by.list) (env_at g.old parts.now.env)) made.env) }
    ensures graph { StaysGraph g.old g.new }
    ensures table { t.new ≡ t.old }
{
    let alloc = g.alloc();
    let by = find_realisation(g, at, env, parts)?;
    let made = realise(g, parts.env, &by)?;
    let mut path = List::new(alloc);
    let mut done = Pairs::new(alloc);
    let pair = EnvPair {
        specified: made,
        found: env,
    };
    enrich_env(g, t, at, &mut path, &mut done, pair, LEVELS)?;
    Ok(Matched { env: made, by })
}

/// Whether an environment, as it is known, matches a signature: one realisation of the names that the signature binds, by
/// the environment's type functions, of equal arity and with equality where it is asked, leaves an environment that the
/// given one enriches. The answer is that environment and the realisation. 36 where a structure, a type or a value is
/// missing, 35 where an arity is another one, 33 where equality is missing, 37 for any other misfit; they stand at the
/// place, and 36 and 37 show the long name from the signature's root. First the realisation is found, then all is
/// compared. A variable of the table that is free in the environment stands for itself alone, and the table is as
/// before. After a refusal the graph may have nodes more. Structures that nest deeper than 1,024, and a variable of the
/// table in a type or in the signature, which no source gives, are refused as want of memory is. By the rules the
/// environment matches the signature by the realisation that is answered.
/// The Definition of Standard ML (Revised), sections 5.5 and 5.6, rule 52.
pub fn match_signature(
    g: &mut EnvGraph,
    t: &mut TypeTable,
    at: &Place,
    env: EnvId,
    sig: SigId,
) -> Result<Matched, Fault>
    requires env { HasEnv g.old env }
    requires sig { HasSignature g.old sig }
    ensures answers { (inner : Scope) → inner.home ≡ at.now.file
        → Answers (matching inner (at_of at.now) (state t.old) (put_env (state t.old).stands (env_at g.old env))
        (signature_at g.old sig)) (λ made. rows_of made.by.list) result }
    ensures sound { IfOk result (λ made. IsMatchedBy (state t.old)
        (put_env (state t.old).stands (env_at g.old env)) (signature_at g.old sig) (put_by made.by.list)) }
    ensures gives { IfOk result (λ made. GivesEnv g.old g.new
        (realised (put_by made.by.list) (signature_at g.old sig).env) made.env) }
    ensures graph { StaysGraph g.old g.new }
    ensures table { t.new ≡ t.old }
{
    let parts = g.read_sig(sig)?;
    match_parts(g, t, at, env, &parts)
}

/// The signature's environment, realised by an environment that matches it: what a structure is under a transparent
/// signature. It is refused as `match_signature` is.
/// The Definition of Standard ML (Revised), rule 52.
pub fn matches(
    g: &mut EnvGraph,
    t: &mut TypeTable,
    at: &Place,
    env: EnvId,
    sig: SigId,
) -> Result<EnvId, Fault>
    requires env { HasEnv g.old env }
    requires sig { HasSignature g.old sig }
    ensures answers { (inner : Scope) → inner.home ≡ at.now.file
        → Answers (matched inner (at_of at.now) (state t.old) (put_env (state t.old).stands (env_at g.old env))
        (signature_at g.old sig)) (env_at g.new) result }
    ensures sound { IfOk result (λ id. IsMatched (state t.old)
        (put_env (state t.old).stands (env_at g.old env)) (signature_at g.old sig) (env_at g.new id)) }
    ensures there { IfOk result (HasEnv g.new) }
    ensures graph { StaysGraph g.old g.new }
    ensures table { t.new ≡ t.old }
{
    Ok(match_signature(g, t, at, env, sig)?.env)
}
