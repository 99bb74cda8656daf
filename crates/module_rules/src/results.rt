//! The result of a functor that is applied.

ghost use Rattle.std.specs.Prelude.{◌≡◌, ◌++◌, IfOk, OnErr};
ghost use Rattle.sml_modules.specs.Graphs.{env_at, HasEnv};
ghost use Rattle.type_walks.specs.Replaced.{rows_of};
ghost use Rattle.module_rules.specs.Results.{Grows, IsRenewed};

use cm_base::{List, NoMemory};
use environment_walks::{Realisation, realise};
use semantic_objects::TyName;
use signature_sealing::new_names;
use sml_modules::{EnvGraph, EnvId};

/// The rows of a realisation behind those of another one.
fn joined(front: Realisation, back: Realisation) -> Result<Realisation, NoMemory>
    ensures { IfOk result (λ by. rows_of by.list ≡ rows_of front.list ++ rows_of back.list) }
{
    let mut list = front.list;
    for row in back.list.into_vec() {
        list.add(row)?;
    }
    Ok(Realisation { list })
}

/// The result of a functor, realised, with new names of the unit for the further names in their order.
/// The Definition of Standard ML (Revised), rule 54.
#[tactic(auto, using(crate::proofs::Growing::grows_none, crate::proofs::Renewing::grows_may, crate::proofs::Renewing::grows_named))]
pub(crate) fn renewed_result(
    g: &mut EnvGraph,
    further: &List<TyName>,
    by: Realisation,
    body: EnvId,
) -> Result<EnvId, NoMemory>
    requires { HasEnv g.old body }
    ensures ok { IfOk result (IsRenewed g.old g.new further.now (rows_of by.list) (env_at g.old body)) }
    ensures err { OnErr result (Grows g.old g.new) }
{
    let new = new_names(g, further.as_slice())?;
    let all = joined(by, new.by)?;
    realise(g, body, &all)
}
