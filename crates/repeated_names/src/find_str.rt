//! Lists of structure expressions, and of the declarations in them.

ghost use Rattle.std.specs.Prelude.{◌≡◌, OnOk, map};
ghost use Rattle.repeated_names.specs.Repeats.{earliest_with, repeats_in, all_repeats};
ghost use Rattle.repeated_names.specs.RepeatedUnits as spec;

use crate::find::Finder;
use crate::find_exp::find_dec;
use crate::find_sig::{find_seal, find_sig};
use cm_base::NoMemory;
use sml_trees::{FullStrBind, FullStrDec, FullStrExp};

#[cycle(find_str)]
fn find_str_decs(finder: &mut Finder, decs: &[FullStrDec]) -> Result<(), NoMemory>
    ensures { OnOk result (finder.new ≡ earliest_with finder.old (all_repeats (map spec.str_dec_repeats decs.now))) }
{
    for dec in decs {
        find_str_dec(finder, dec)?;
    }
    Ok(())
}

#[cycle(find_str)]
#[tactic(auto, using(crate::proofs::FoundStrs::str_dec_forms))]
fn find_str_dec(finder: &mut Finder, dec: &FullStrDec) -> Result<(), NoMemory>
    ensures { OnOk result (finder.new ≡ earliest_with finder.old (spec.str_dec_repeats dec.now)) }
{
    match dec {
        FullStrDec::Core(dec) => find_dec(finder, dec),
        FullStrDec::Structures(binds, _) => find_str_binds(finder, binds.as_slice()),
        FullStrDec::Local(hidden, decs, _) => {
            find_str_decs(finder, hidden.as_slice())?;
            find_str_decs(finder, decs.as_slice())
        }
    }
}

#[cycle(find_str)]
#[tactic(auto, using(crate::proofs::FoundStrs::str_forms))]
pub fn find_str(finder: &mut Finder, str: &FullStrExp) -> Result<(), NoMemory>
    ensures { OnOk result (finder.new ≡ earliest_with finder.old (spec.str_repeats str.now)) }
{
    match str {
        FullStrExp::Struct(decs, _) => find_str_decs(finder, decs.as_slice()),
        FullStrExp::Named(_, _) => Ok(()),
        FullStrExp::Transparent(inner, sig, _) => {
            find_str(finder, inner.get())?;
            find_sig(finder, sig)
        }
        FullStrExp::Opaque(inner, sig, _) => {
            find_str(finder, inner.get())?;
            find_sig(finder, sig)
        }
        FullStrExp::Functor(_, arg, _) => find_str(finder, arg.get()),
        FullStrExp::FunctorOfDecs(_, decs, _, _) => find_str_decs(finder, decs.as_slice()),
        FullStrExp::Within(decs, inner, _) => {
            find_str_decs(finder, decs.as_slice())?;
            find_str(finder, inner.get())
        }
    }
}

#[cycle(find_str)]
#[tactic(auto, using(crate::proofs::Found::seen_steps))]
pub fn find_str_binds(finder: &mut Finder, binds: &[FullStrBind]) -> Result<(), NoMemory>
    ensures { OnOk result (finder.new ≡ earliest_with finder.old (repeats_in (map spec.str_bind_member binds.now))) }
{
    let mut seen = finder.no_names();
    for bind in binds {
        finder.see(&mut seen, &bind.name)?;
        find_seal(finder, &bind.seal)?;
        find_str(finder, &bind.body)?;
    }
    Ok(())
}
