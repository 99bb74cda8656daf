//! Type names of a unit with numbers below another.

ghost use Rattle.std.specs.Prelude.{◌≡◌, ◌↔◌, ◌≤◌, ◌^◌, [], ◌∷◌, length, IsTrue, IfOk};
ghost use Rattle.semantic_objects.specs.declared.symbol.Symbol.TheVariants as symbol;
ghost use Rattle.static_semantics.specs.DatatypeInference.{same_as_home};
ghost use Rattle.unit_laws.specs.Parts.{AreBoundFrom};
ghost use Rattle.given_tops.specs.Names.{may_stand};

use cm_base::{List, NoMemory, Text};
use semantic_objects::{Owner, Symbol, TyName};
use sml_modules::EnvGraph;

/// A unit, and the number below which its type names may stand.
#[derive(Drop)]
pub(crate) struct Limits {
    pub(crate) home: Text,
    pub(crate) number: u64,
}

/// The unit that a graph is at, and the number that its next type name gets.
pub(crate) fn limits_of(g: &EnvGraph) -> Result<Limits, NoMemory>
    ensures home { IfOk result (λ limits. limits.home ≡ g.now.home) }
    ensures number { IfOk result (λ limits. limits.number ≡ length g.now.made) }
{
    let home = g.home()?;
    Ok(Limits {
        home,
        number: g.made(),
    })
}

/// Whether a unit owns a type name.
fn is_own(home: &Text, owner: &Owner) -> bool
    ensures { result ≡ same_as_home home.now owner.now }
{
    match owner {
        Owner::Basis => false,
        Owner::Unit(unit) => unit.as_bytes() == home.as_bytes(),
        Owner::Bound => false,
    }
}

/// Whether a type name may stand: it is none of the unit, or has a number below that one.
pub(crate) fn name_may_stand(limits: &Limits, name: &TyName) -> bool
    ensures { result ≡ may_stand limits.now (symbol.Name name.now) }
{
    let own = is_own(&limits.home, &name.owner);
    !own || name.number < limits.number
}

/// Whether a symbol may stand.
pub(crate) fn may_stand(limits: &Limits, symbol: &Symbol) -> bool
    ensures { result ≡ may_stand limits.now symbol.now }
{
    match symbol {
        Symbol::Arrow => true,
        Symbol::Record(_) => true,
        Symbol::Name(name) => name_may_stand(limits, name),
    }
}

/// Whether a type name is the bound one with a number.
fn is_bound_as(name: &TyName, number: u64) -> bool
    ensures { IsTrue result ↔ AreBoundFrom number (name.now ∷ []) }
{
    match name.owner {
        Owner::Bound => name.number == number,
        Owner::Basis | Owner::Unit(_) => false,
    }
}

/// Whether type names are bound ones, numbered one after another from a number on.
pub(crate) fn are_bound_from(first: usize, names: &List<TyName>) -> bool
    requires { first ≤ 2 ^ 63 }
    ensures { IsTrue result ↔ AreBoundFrom first names.now }
{
    let mut number = first as u64;
    for name in names.as_slice() {
        if !is_bound_as(name, number) {
            return false;
        }
        number += 1;
    }
    true
}
