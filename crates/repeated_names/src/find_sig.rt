//! Lists of signatures and specifications.

ghost use Rattle.std.specs.Prelude.{◌≡◌, OnOk, map};
ghost use Rattle.repeated_names.specs.Repeats.{earliest_with, repeats_in, all_repeats};
ghost use Rattle.repeated_names.specs.RepeatedTypes as spec;

use crate::find::{Finder, Searched, find_all, find_in, find_tyvars};
use crate::find_ty::{find_datatypes, find_ty};
use cm_base::NoMemory;
use sml_trees::{FullSeal, FullSigBind, FullSigExp, FullSpec, FullWhere};

impl Searched for FullWhere {
    ghost use Rattle.repeated_names.specs.RepeatedTypes.{where_repeats};

    ghost repeats = { where_repeats };

    #[tactic(auto, using(crate::proofs::Found::found_steps))]
    fn find(&self, finder: &mut Finder) -> Result<(), NoMemory> {
        find_tyvars(finder, self.tyvars.as_slice())?;
        find_ty(finder, &self.ty)
    }
}

#[cycle(find_sig)]
#[tactic(auto, using(crate::proofs::FoundSigs::sig_steps))]
pub fn find_sig(finder: &mut Finder, sig: &FullSigExp) -> Result<(), NoMemory>
    ensures { OnOk result (finder.new ≡ earliest_with finder.old (spec.sig_repeats sig.now)) }
{
    match sig {
        FullSigExp::Sig(specs, _) => find_specs(finder, specs.as_slice()),
        FullSigExp::Named(_, _) => Ok(()),
        FullSigExp::Where(inner, wheres, _) => {
            find_sig(finder, inner.get())?;
            find_all(finder, wheres.as_slice())
        }
    }
}

#[cycle(find_sig)]
#[tactic(auto, using(crate::proofs::Found::found_steps))]
pub fn find_specs(finder: &mut Finder, specs: &[FullSpec]) -> Result<(), NoMemory>
    ensures { OnOk result (finder.new ≡ earliest_with finder.old (all_repeats (map spec.spec_repeats specs.now))) }
{
    for spec in specs {
        find_spec(finder, spec)?;
    }
    Ok(())
}

#[cycle(find_sig)]
#[tactic(auto, using(crate::proofs::FoundSigs::sig_steps))]
fn find_spec(finder: &mut Finder, full: &FullSpec) -> Result<(), NoMemory>
    ensures { OnOk result (finder.new ≡ earliest_with finder.old (spec.spec_repeats full.now)) }
{
    match full {
        FullSpec::Vals(descs, _) => find_all(finder, descs.as_slice()),
        FullSpec::Types(descs, _) => find_in(finder, descs.as_slice()),
        FullSpec::Eqtypes(descs, _) => find_all(finder, descs.as_slice()),
        FullSpec::Datatypes(binds, _) => find_datatypes(finder, binds.as_slice()),
        FullSpec::Replication(_, _, _) => Ok(()),
        FullSpec::Exceptions(cons, _) => find_in(finder, cons.as_slice()),
        FullSpec::Structures(binds, _) => find_sig_binds(finder, binds.as_slice()),
        FullSpec::IncludeNames(_, _) => Ok(()),
        FullSpec::Include(sig, _) => find_sig(finder, sig.get()),
    }
}

#[cycle(find_sig)]
#[tactic(auto, using(crate::proofs::Found::seen_steps))]
pub fn find_sig_binds(finder: &mut Finder, binds: &[FullSigBind]) -> Result<(), NoMemory>
    ensures { OnOk result (finder.new ≡ earliest_with finder.old (repeats_in (map spec.sig_bind_member binds.now))) }
{
    let mut seen = finder.no_names();
    for bind in binds {
        finder.see(&mut seen, &bind.name)?;
        find_sig(finder, &bind.sig)?;
    }
    Ok(())
}

/// A signature that may be given.
pub fn find_seal(finder: &mut Finder, seal: &Option<FullSeal>) -> Result<(), NoMemory>
    ensures { OnOk result (finder.new ≡ earliest_with finder.old (spec.seal_repeats seal.now)) }
{
    match seal {
        None => Ok(()),
        Some(seal) => find_sig(finder, &seal.sig),
    }
}
