//! The uses of the declarations of a unit's top level.

ghost use Rattle.std.specs.Prelude.{◌≡◌, OnOk, map};
ghost use Rattle.skeletons.specs.Scopes.{sequence, joined};
ghost use Rattle.skeletons.specs.Skeletons.{sig_bound, fun_binding, funsig_binding, top_brings};
ghost use Rattle.skeletons.specs.Walks.{noted, declared};

use crate::walk::Walk;
use crate::walk_exp::{walk_str, walk_str_binds};
use crate::walk_sig::walk_sig;
use cm_base::{Namespace, NoMemory};
use sml_trees::{FunBind, FunsigBind, SigBind, TopDec};

fn walk_sigs(walk: &mut Walk, binds: &[SigBind]) -> Result<(), NoMemory>
    ensures { OnOk result (walk.new ≡ noted walk.old ((joined (map sig_bound binds.now)).uses)) }
{
    for bind in binds {
        walk_sig(walk, &bind.sig)?;
    }
    Ok(())
}

fn walk_sig_binds(walk: &mut Walk, binds: &[SigBind]) -> Result<(), NoMemory>
    ensures { OnOk result (walk.new ≡ declared walk.old (joined (map sig_bound binds.now))) }
{
    walk_sigs(walk, binds)?;
    for bind in binds {
        walk.bind(Namespace::Signature, &bind.name)?;
    }
    Ok(())
}

/// The uses of a functor: its parameter is in scope in its body alone.
fn walk_functor(walk: &mut Walk, bind: &FunBind) -> Result<(), NoMemory>
    ensures { OnOk result (walk.new ≡ noted walk.old ((fun_binding bind.now).uses)) }
{
    walk_sig(walk, &bind.param_sig)?;
    let mark = walk.mark();
    walk.bind(Namespace::Structure, &bind.param)?;
    walk_str(walk, &bind.body)?;
    walk.close(mark);
    Ok(())
}

fn walk_functors(walk: &mut Walk, binds: &[FunBind]) -> Result<(), NoMemory>
    ensures { OnOk result (walk.new ≡ noted walk.old ((joined (map fun_binding binds.now)).uses)) }
{
    for bind in binds {
        walk_functor(walk, bind)?;
    }
    Ok(())
}

fn walk_fun_binds(walk: &mut Walk, binds: &[FunBind]) -> Result<(), NoMemory>
    ensures { OnOk result (walk.new ≡ declared walk.old (joined (map fun_binding binds.now))) }
{
    walk_functors(walk, binds)?;
    for bind in binds {
        walk.bind(Namespace::Functor, &bind.name)?;
    }
    Ok(())
}

/// The uses of a functor's signature: its parameter is in scope in the result's signature alone.
fn walk_funsig(walk: &mut Walk, bind: &FunsigBind) -> Result<(), NoMemory>
    ensures { OnOk result (walk.new ≡ noted walk.old ((funsig_binding bind.now).uses)) }
{
    walk_sig(walk, &bind.param_sig)?;
    let mark = walk.mark();
    walk.bind(Namespace::Structure, &bind.param)?;
    walk_sig(walk, &bind.result_sig)?;
    walk.close(mark);
    Ok(())
}

fn walk_funsigs(walk: &mut Walk, binds: &[FunsigBind]) -> Result<(), NoMemory>
    ensures { OnOk result (walk.new ≡ noted walk.old ((joined (map funsig_binding binds.now)).uses)) }
{
    for bind in binds {
        walk_funsig(walk, bind)?;
    }
    Ok(())
}

fn walk_funsig_binds(walk: &mut Walk, binds: &[FunsigBind]) -> Result<(), NoMemory>
    ensures { OnOk result (walk.new ≡ declared walk.old (joined (map funsig_binding binds.now))) }
{
    walk_funsigs(walk, binds)?;
    for bind in binds {
        walk.bind(Namespace::Funsig, &bind.name)?;
    }
    Ok(())
}

fn walk_topdec(walk: &mut Walk, topdec: &TopDec) -> Result<(), NoMemory>
    ensures { OnOk result (walk.new ≡ declared walk.old (top_brings topdec.now)) }
{
    match topdec {
        TopDec::Structures(binds, _) => walk_str_binds(walk, binds.as_slice()),
        TopDec::Signatures(binds, _) => walk_sig_binds(walk, binds.as_slice()),
        TopDec::Functors(binds, _) => walk_fun_binds(walk, binds.as_slice()),
        TopDec::Funsigs(binds, _) => walk_funsig_binds(walk, binds.as_slice()),
    }
}

/// Walks over the declarations of a top level, each in the scope of those before it.
pub(crate) fn walk_topdecs(walk: &mut Walk, topdecs: &[TopDec]) -> Result<(), NoMemory>
    ensures { OnOk result (walk.new ≡ declared walk.old (sequence (map top_brings topdecs.now))) }
{
    for topdec in topdecs {
        walk_topdec(walk, topdec)?;
    }
    Ok(())
}
