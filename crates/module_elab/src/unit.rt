//! Whole units.

ghost use Rattle.std.specs.Prelude.{◌≡◌, [], length, Err, IfOk, OnErr};
ghost use Rattle.cm_base.specs.declared.fault.Fault.TheVariants as fault;
ghost use Rattle.unification.specs.Unification.{depth};
ghost use Rattle.type_nodes.specs.Tables.{state};
ghost use Rattle.sml_modules.specs.Graphs.{top_at, HasTop, Keeps};
ghost use Rattle.initial_basis.specs.Basis.{basis_env};
ghost use Rattle.type_phrases.specs.Inferred.{Answers, KeepsTypes, progress};
ghost use Rattle.static_semantics.specs.Holding.{AllItems};
ghost use Rattle.unit_semantics.specs.UnitPhrases.{unit_phrases, read_unit};
ghost use Rattle.unit_semantics.specs.UnitInference.{infer_unit};
ghost use Rattle.unit_semantics.specs.ElaboratesUnits.{ElaboratesUnit};
ghost use Rattle.elaboration_laws.specs.Declaring.{BindsValues};
ghost use Rattle.unit_derivations.specs.Declaring.{TopHas};
ghost use Rattle.basis_laws.specs.Promises.{MayBeGiven};
ghost use Rattle.module_elab.specs.Units.{unit_alone};

use crate::given::is_given;
use crate::ready::is_ready_top;
use crate::tops::elab_tops;
use cm_base::{Fault, Options};
use initial_basis::basis;
use module_scopes::{TopScope, make_defined};
use sml_modules::{EnvGraph, TopId};
use sml_trees::BareUnit;
use sml_types::TypeTable;

/// What a unit defines. The table may have more after a refusal.
fn defined_in(
    g: &mut EnvGraph,
    t: &mut TypeTable,
    unit: &BareUnit,
    given: TopId,
    options: Options,
) -> Result<TopId, Fault>
    requires given { HasTop g.old given }
    requires fit { MayBeGiven g.old.home (top_at g.old given) (progress t.old g.old) }
    ensures infers { Answers (infer_unit depth g.old.home (basis_env options.nobasis) (top_at g.old given) options.opaque
        (unit_phrases unit.now) (progress t.old g.old)) (λ id. (top_at g.new id, progress t.new g.new)) result }
    ensures there { IfOk result (HasTop g.new) }
    ensures ids { KeepsTypes t.old t.new }
    ensures graph { Keeps g.old g.new }
    ensures home { g.new.home ≡ g.old.home }
{
    let alloc = g.alloc();
    let top = basis(alloc, g, options)?;
    let env = g.env_of(top)?;
    let mut scope = TopScope::new(alloc, g, env, given)?;
    is_ready_top(g, t, &scope);
    elab_tops(
        alloc,
        g,
        t,
        &mut scope,
        options.opaque,
        unit.topdecs.as_slice(),
    )?;
    let made = make_defined(alloc, g, &scope.defined)?;
    Ok(made)
}

/// What a unit defines over the initial basis and what is given in front of it, and nothing that was given: 30 to 38 and 40
/// to 42 where inference gives that, and the table is then as before. With the option `opaque` a `:` that is outermost on
/// the right side of a structure binding of the top level is read as `:>`. The unit is the graph's `home`. All ids keep what
/// they stand for; names and nodes may be left after a refusal.
///
/// What is given is to have names of the unit below the next number alone, and so has what stands for variables of the
/// table; its tables are to rise, and no type variable may stand in it. The call looks itself, at each node once, and
/// refuses what isn't so as want of memory is, with nothing changed. The empty top may always be given over a new table
/// (`basis_laws`); a table that has served a unit of the same name before is refused once that unit is entered again. Where no name was made since the last `enter`, the answer hangs on the unit, its name, the options and
/// what is given alone, whatever else graph and table hold. Where `rec` bindings bind functions, as those of every source
/// do, what is defined is given by the rules.
/// The Definition of Standard ML (Revised), rules 50 to 89.
pub fn elab_unit(
    g: &mut EnvGraph,
    t: &mut TypeTable,
    unit: &BareUnit,
    given: TopId,
    options: Options,
) -> Result<TopId, Fault>
    requires { HasTop g.old given }
    ensures infers { Answers (infer_unit depth g.old.home (basis_env options.nobasis) (top_at g.old given) options.opaque
        (unit_phrases unit.now) (progress t.old g.old)) (λ id. (top_at g.new id, progress t.new g.new)) result }
    ensures alone { g.old.made ≡ [] → Answers (unit_alone g.old.home (basis_env options.nobasis) (top_at g.old given)
        options.opaque (unit_phrases unit.now)) (λ id. (top_at g.new id, length g.new.made)) result }
    ensures sound { AllItems (TopHas BindsValues) (read_unit options.opaque (unit_phrases unit.now))
        → IfOk result (λ id. ElaboratesUnit (state t.new) g.old.home (basis_env options.nobasis) (top_at g.old given)
        (length g.old.made) (read_unit options.opaque (unit_phrases unit.now)) (top_at g.new id) (length g.new.made)) }
    ensures foreign { (MayBeGiven g.old.home (top_at g.old given) (progress t.old g.old) → ⊥)
        → (result ≡ Err fault.NoMemory) × (g.new ≡ g.old) × (t.new ≡ t.old) }
    ensures there { IfOk result (HasTop g.new) }
    ensures ids { KeepsTypes t.old t.new }
    ensures refused { OnErr result (t.new ≡ t.old) }
    ensures graph { Keeps g.old g.new }
    ensures home { g.new.home ≡ g.old.home }
{
    if !is_given(g, t, given) {
        return Err(Fault::NoMemory);
    }
    t.is_kept();
    let begun = t.mark();
    match defined_in(g, t, unit, given, options) {
        Ok(id) => Ok(id),
        Err(fault) => {
            t.undo(&begun);
            Err(fault)
        }
    }
}
