//! What a signature specifies, while it is made.

ghost use Rattle.std.specs.Prelude.{◌≡◌, [], OnOk, OnErr};
ghost use Rattle.std.specs.Option.{is_some};
ghost use Rattle.semantic_objects.specs.Environments.{empty_env, with_type, with_value};
ghost use Rattle.name_trails.specs.Trails.{last_entry};
ghost use Rattle.static_semantics.specs.Inferring.{Scope, refuses_where, name_at};
ghost use Rattle.module_semantics.specs.SignatureNames.{also_bound, empty_signature};
ghost use Rattle.module_semantics.specs.SignatureInference.{specified};
ghost use Rattle.sml_modules.specs.Graphs.{Graph};
ghost use Rattle.type_phrases.specs.Inferred.{Answers};
ghost use Rattle.signature_specs.specs.Specs.{signature_so_far, IsFrontOf};

use cm_base::{Fault, List, NoMemory};
use name_trails::NameTrail;
use semantic_objects::{TyName, TypeStr, ValueEntry};
use sml_modules::{EnvGraph, EnvId};
use sml_trees::Name;
use std::alloc::Global;
use type_phrases::{place_of, refusal};

/// A signature while it is made: the type names that it binds, which are names of the unit as long as it is open, and
/// what it specifies, each kind by name in written order.
/// The Definition of Standard ML (Revised), rules 62 and 76 to 84.
#[derive(Drop)]
pub struct Specified {
    pub bound: List<TyName>,
    pub structures: NameTrail<EnvId>,
    pub types: NameTrail<TypeStr>,
    pub values: NameTrail<ValueEntry>,
}

impl Specified {
    /// A signature that specifies nothing yet. It takes no memory.
    pub fn new(alloc: Global) -> Specified
        ensures empty { (g : Graph) → signature_so_far g result ≡ empty_signature }
        ensures structures { result.structures ≡ [] }
    {
        Specified {
            bound: List::new(alloc),
            structures: NameTrail::new(alloc),
            types: NameTrail::new(alloc),
            values: NameTrail::new(alloc),
        }
    }
}

/// 40 at a name that is specified. The Definition of Standard ML (Revised), rules 77 and 79 to 84.
pub fn check_new<T>(
    alloc: Global,
    g: &EnvGraph,
    rows: &NameTrail<T>,
    name: &Name,
) -> Result<(), Fault>
    ensures { (inner : Scope) → inner.home ≡ g.now.home
        → Answers (refuses_where (is_some (last_entry rows.now name.now.text)) 40 inner (name_at name.now)) (λ u. tt)
        result }
{
    match rows.find(&name.text) {
        None => Ok(()),
        Some(_) => Err(refusal(g, 40, place_of(name), List::new(alloc))),
    }
}

/// Specifies a value: 40 at a name that a value has already. A refusal leaves the signature as it was.
/// The Definition of Standard ML (Revised), rules 77 and 79.
pub fn specify_value(
    alloc: Global,
    g: &EnvGraph,
    made: &mut Specified,
    name: &Name,
    entry: ValueEntry,
) -> Result<(), Fault>
    ensures infers { (inner : Scope) → inner.home ≡ g.now.home
        → Answers (specified inner (name_at name.now) (with_value name.now.text entry empty_env)
        (signature_so_far g.now made.old)) (λ u. signature_so_far g.now made.new) result }
    ensures refused { OnErr result (made.new ≡ made.old) }
    ensures front { OnOk result (IsFrontOf made.old made.new) }
    ensures structures { OnOk result (made.new.structures ≡ made.old.structures) }
{
    check_new(alloc, g, &made.values, name)?;
    let text = name.text.copy()?;
    made.values.bind(text, entry)?;
    Ok(())
}

/// Specifies a type: 40 at a name that a type has already. A refusal leaves the signature as it was.
/// The Definition of Standard ML (Revised), rules 69 to 72.
pub fn specify_type(
    alloc: Global,
    g: &EnvGraph,
    made: &mut Specified,
    name: &Name,
    entry: TypeStr,
) -> Result<(), Fault>
    ensures infers { (inner : Scope) → inner.home ≡ g.now.home
        → Answers (specified inner (name_at name.now) (with_type name.now.text entry empty_env)
        (signature_so_far g.now made.old)) (λ u. signature_so_far g.now made.new) result }
    ensures refused { OnErr result (made.new ≡ made.old) }
    ensures front { OnOk result (IsFrontOf made.old made.new) }
    ensures structures { OnOk result (made.new.structures ≡ made.old.structures) }
{
    check_new(alloc, g, &made.types, name)?;
    let text = name.text.copy()?;
    made.types.bind(text, entry)?;
    Ok(())
}
