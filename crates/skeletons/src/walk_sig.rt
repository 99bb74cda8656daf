//! The uses of signature expressions and specifications.

ghost use Rattle.std.specs.Prelude.{◌≡◌, IfOk, OnOk, map};
ghost use Rattle.skeletons.specs.Scopes.{sequence, joined};
ghost use Rattle.skeletons.specs.Uses.{sig_uses, spec_brings, sig_binding};
ghost use Rattle.skeletons.specs.Walks.{noted, declared};

use crate::noted::note_all;
use crate::walk::Walk;
use crate::walk_ty::walk_ty;
use cm_base::{Namespace, NoMemory};
use sml_trees::{SigBind, SigExp, Spec};

#[cycle(walk_sig)]
#[tactic(auto, using(crate::proofs::Chains::chains))]
pub(crate) fn walk_sig(walk: &mut Walk, sig: &SigExp) -> Result<(), NoMemory>
    ensures { OnOk result (walk.new ≡ noted walk.old (sig_uses sig.now)) }
{
    match sig {
        SigExp::Sig(spec, _) => {
            let mark = walk.mark();
            walk_spec(walk, spec.get())?;
            walk.close(mark);
            Ok(())
        }
        SigExp::Named(name, _) => walk.name(Namespace::Signature, name),
        SigExp::Where(sig, _, _, ty, _) => {
            walk_sig(walk, sig.get())?;
            walk_ty(walk, ty)
        }
    }
}

#[cycle(walk_sig)]
#[tactic(auto, using(crate::proofs::Chains::chains))]
fn walk_spec(walk: &mut Walk, spec: &Spec) -> Result<(), NoMemory>
    ensures { OnOk result (walk.new ≡ declared walk.old (spec_brings spec.now)) }
{
    match spec {
        Spec::Vals(descs, _) => note_all(walk, descs),
        Spec::Types(_, _) | Spec::Eqtypes(_, _) => Ok(()),
        Spec::Datatypes(binds, _) => note_all(walk, binds),
        Spec::Replication(_, long, _) => walk.qualifier(long),
        Spec::Exceptions(descs, _) => note_all(walk, descs),
        Spec::Structures(descs, _) => walk_descs(walk, descs.as_slice()),
        Spec::Include(sig, _) => {
            walk_sig(walk, sig.get())?;
            walk.opened = true;
            Ok(())
        }
        Spec::Sequence(specs, _) => walk_specs(walk, specs.as_slice()),
    }
}

#[cycle(walk_sig)]
#[tactic(auto, using(crate::proofs::Chains::chains))]
fn walk_specs(walk: &mut Walk, specs: &[Spec]) -> Result<(), NoMemory>
    ensures { OnOk result (walk.new ≡ declared walk.old (sequence (map spec_brings specs.now))) }
{
    for spec in specs {
        walk_spec(walk, spec)?;
    }
    Ok(())
}

#[cycle(walk_sig)]
#[tactic(auto, using(crate::proofs::Chains::chains))]
fn walk_descs(walk: &mut Walk, descs: &[SigBind]) -> Result<(), NoMemory>
    ensures { OnOk result (walk.new ≡ declared walk.old (joined (map sig_binding descs.now))) }
{
    walk_sigs(walk, descs)?;
    for desc in descs {
        walk.bind(Namespace::Structure, &desc.name)?;
    }
    Ok(())
}

#[cycle(walk_sig)]
#[tactic(auto, using(crate::proofs::Chains::chains))]
fn walk_sigs(walk: &mut Walk, descs: &[SigBind]) -> Result<(), NoMemory>
    ensures { OnOk result (walk.new ≡ noted walk.old ((joined (map sig_binding descs.now)).uses)) }
{
    for desc in descs {
        walk_sig(walk, &desc.sig)?;
    }
    Ok(())
}
