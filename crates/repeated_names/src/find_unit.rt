//! Lists of whole units, and the first name that stands twice in one.

ghost use Rattle.std.specs.Prelude.{◌≡◌, IfOk, OnOk, map};
ghost use Rattle.repeated_names.specs.Repeats.{IsEarliest, earliest_with};
ghost use Rattle.repeated_names.specs.RepeatedUnits as spec;

use crate::find::{Finder, Listed, Searched, find_all, find_in};
use crate::find_sig::{find_seal, find_sig, find_sig_binds, find_specs};
use crate::find_str::{find_str, find_str_binds};
use cm_base::NoMemory;
use sml_trees::{At, FullFunctorBind, FullFunsigBind, FullParam, FullTopDec, FullUnit, Name};
use std::alloc::Global;

fn find_param(finder: &mut Finder, param: &FullParam) -> Result<(), NoMemory>
    ensures { OnOk result (finder.new ≡ earliest_with finder.old (spec.param_repeats param.now)) }
{
    match param {
        FullParam::Named(_, sig) => find_sig(finder, sig),
        FullParam::Spec(specs, _) => find_specs(finder, specs.as_slice()),
    }
}

impl Listed for FullFunctorBind {
    ghost use Rattle.repeated_names.specs.RepeatedUnits.{functor_member};

    ghost listed = { functor_member };

    fn name(&self) -> &Name {
        &self.name
    }

    #[tactic(auto, using(crate::proofs::Found::found_steps))]
    fn find_inside(&self, finder: &mut Finder) -> Result<(), NoMemory> {
        find_param(finder, &self.param)?;
        find_seal(finder, &self.seal)?;
        find_str(finder, &self.body)
    }
}

impl Listed for FullFunsigBind {
    ghost use Rattle.repeated_names.specs.RepeatedUnits.{funsig_member};

    ghost listed = { funsig_member };

    fn name(&self) -> &Name {
        &self.name
    }

    #[tactic(auto, using(crate::proofs::Found::found_steps))]
    fn find_inside(&self, finder: &mut Finder) -> Result<(), NoMemory> {
        find_sig(finder, &self.param_sig)?;
        find_sig(finder, &self.result_sig)
    }
}

impl Searched for FullTopDec {
    ghost use Rattle.repeated_names.specs.RepeatedUnits.{topdec_repeats};

    ghost repeats = { topdec_repeats };

    fn find(&self, finder: &mut Finder) -> Result<(), NoMemory> {
        match self {
            FullTopDec::Structures(binds, _) => find_str_binds(finder, binds.as_slice()),
            FullTopDec::Signatures(binds, _) => find_sig_binds(finder, binds.as_slice()),
            FullTopDec::Functors(binds, _) => find_in(finder, binds.as_slice()),
            FullTopDec::Funsigs(binds, _) => find_in(finder, binds.as_slice()),
        }
    }
}

/// The earliest place of a name that stands twice in a list of a unit that may hold it but once: a label of a record,
/// a type variable of a list, or a name of bindings that `and` joins in one `type`, `datatype`, `exception`,
/// `structure`, `signature`, `functor` or `funsig`. The place is that of the second. (The Definition, 2.9 and 3.5.)
pub fn first_repeat(alloc: Global, unit: &FullUnit) -> Result<Option<At>, NoMemory>
    ensures earliest { IfOk result (λ found. IsEarliest (spec.unit_repeats unit.now) found) }
    ensures found { IfOk result (λ found. found ≡ spec.first_repeat unit.now) }
{
    let mut finder = Finder::new(alloc);
    find_all(&mut finder, unit.topdecs.as_slice())?;
    Ok(finder.first())
}
