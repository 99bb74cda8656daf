//! Opaque signatures, and signatures that are named.

ghost use Rattle.std.specs.Prelude.{IfOk, OnErr};
ghost use Rattle.sml_modules.specs.Graphs.{signature_at, HasSignature};
ghost use Rattle.signature_sealing.specs.Sealing.{IsOpened, IsSealed, MayMakeNames};

use crate::renewal::new_names;
use cm_base::NoMemory;
use environment_walks::realise;
use sml_modules::{EnvGraph, EnvId, SigId, SigParts};

/// A signature with new names of the unit for those that it binds, in the order of its list: what a signature that is
/// named stands for. Want of memory may leave names behind, and no node.
/// The Definition of Standard ML (Revised), rule 63.
pub fn open_signature(g: &mut EnvGraph, sig: SigId) -> Result<SigParts, NoMemory>
    requires { HasSignature g.old sig }
    ensures ok { IfOk result (IsOpened g.old g.new (signature_at g.old sig)) }
    ensures err { OnErr result (MayMakeNames g.old g.new) }
{
    let parts = g.read_sig(sig)?;
    let new = new_names(g, parts.bound.as_slice())?;
    let env = realise(g, parts.env, &new.by)?;
    Ok(SigParts {
        bound: new.names,
        env,
    })
}

/// What a structure is under an opaque signature: the signature's environment, with new names of the unit for those that
/// it binds, in the order of its list. Each use makes names of its own, so two of them clash, and nothing is seen of
/// the types by which a structure matches. Want of memory may leave names behind, and no node.
/// The Definition of Standard ML (Revised), rule 53.
pub fn seal(g: &mut EnvGraph, sig: SigId) -> Result<EnvId, NoMemory>
    requires { HasSignature g.old sig }
    ensures ok { IfOk result (IsSealed g.old g.new (signature_at g.old sig)) }
    ensures err { OnErr result (MayMakeNames g.old g.new) }
{
    Ok(open_signature(g, sig)?.env)
}
