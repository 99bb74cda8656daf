//! `type` and `eqtype` specifications.

ghost use Rattle.std.specs.Prelude.{◌≡◌, map, IfOk, OnOk, OnErr};
ghost use Rattle.sml_modules.specs.Graphs.{new_name_of, with_name};
ghost use Rattle.static_semantics.specs.Inferring.{Scope};
ghost use Rattle.type_phrases.specs.Inferred.{Answers, KeepsTypes, progress};
ghost use Rattle.module_semantics.specs.SigPhrases.{type_desc_phrase};
ghost use Rattle.module_semantics.specs.SignatureInference.{infer_type_descs};
ghost use Rattle.signature_specs.specs.Specs.{signature_so_far, IsFrontOf};
ghost use Rattle.signature_specs.specs.Types.{infer_type_desc};

use crate::own_types::own_type;
use crate::specified::{Specified, specify_type};
use cm_base::{Fault, NoMemory};
use semantic_objects::TyName;
use sml_modules::EnvGraph;
use sml_trees::TypDesc;
use sml_types::TypeTable;
use std::alloc::Global;
use type_bindings::list_variables;

/// A new type name of the unit, of so many arguments.
fn new_name(g: &mut EnvGraph, arity: usize, eq: bool) -> Result<TyName, NoMemory>
    ensures ok { IfOk result (λ name. name ≡ new_name_of g.old arity eq) }
    ensures made { IfOk result (λ name. g.new ≡ with_name name g.old) }
    ensures err { OnErr result (g.new ≡ g.old) }
{
    match u32::try_from(arity) {
        Ok(arity) => g.new_name(arity, eq),
        Err(_) => Err(NoMemory),
    }
}

/// One type of a specification. A refusal may leave a type name of the unit that nothing has.
fn elab_type(
    alloc: Global,
    g: &mut EnvGraph,
    t: &mut TypeTable,
    eq: bool,
    desc: &TypDesc,
    made: &mut Specified,
) -> Result<(), Fault>
    ensures infers { (inner : Scope) → inner.home ≡ g.old.home
        → Answers (infer_type_desc inner eq (type_desc_phrase desc.now) (signature_so_far g.old made.old)
        (progress t.old g.old)) (λ done. (signature_so_far g.new made.new, progress t.new g.new)) result }
    ensures keeps { KeepsTypes t.old t.new }
    ensures items { g.new.items ≡ g.old.items }
    ensures home { g.new.home ≡ g.old.home }
    ensures front { OnOk result (IsFrontOf made.old made.new) }
    ensures structures { OnOk result (made.new.structures ≡ made.old.structures) }
{
    list_variables(alloc, g, t, desc.tyvars.as_slice())?;
    let name = new_name(g, desc.tyvars.len(), eq)?;
    let entry = own_type(alloc, &name)?;
    specify_type(alloc, g, made, &desc.name, entry)?;
    made.bound.add(name)?;
    Ok(())
}

/// The types of a `type` or an `eqtype` specification, after what is specified so far: each with a new name of the unit,
/// of as many arguments as its list of type variables has, which admits equality as one asks. For each in written order
/// 40 at a type variable that stands in its list before, then 40 at a name that a type of the signature has already. All
/// that the graph had stays as it was, and the table may have variables more; after a refusal the signature is of no
/// use, and the graph may have a type name more that nothing has.
/// The Definition of Standard ML (Revised), rules 69, 70, 80 and 81.
pub fn elab_types(
    alloc: Global,
    g: &mut EnvGraph,
    t: &mut TypeTable,
    eq: bool,
    descs: &[TypDesc],
    made: &mut Specified,
) -> Result<(), Fault>
    ensures infers { (inner : Scope) → inner.home ≡ g.old.home
        → Answers (infer_type_descs inner eq (map type_desc_phrase descs.now) (signature_so_far g.old made.old)
        (progress t.old g.old)) (λ done. (signature_so_far g.new made.new, progress t.new g.new)) result }
    ensures keeps { KeepsTypes t.old t.new }
    ensures items { g.new.items ≡ g.old.items }
    ensures home { g.new.home ≡ g.old.home }
    ensures front { OnOk result (IsFrontOf made.old made.new) }
    ensures structures { OnOk result (made.new.structures ≡ made.old.structures) }
{
    for desc in descs {
        elab_type(alloc, g, t, eq, desc, made)?;
    }
    Ok(())
}
