//! Which types admit equality, by the symbol above their parts.

ghost use Rattle.std.specs.Prelude.{◌≡◌};
ghost use Rattle.unification.specs.Types.{is_ref, equality_of};

use semantic_objects::{Owner, Symbol, TyName};

/// Whether types under a symbol are equality types: never, always, or where all their parts are.
/// The Definition of Standard ML (Revised), section 4.4.
#[derive(Clone, Copy, Debug, PartialEq, Eq)]
pub enum Equality {
    Never,
    Always,
    ByParts,
}

/// The number of `ref` among the type names of the initial basis.
const REF: u64 = 6;

/// Whether a type name is `ref` of the initial basis.
fn names_ref(name: &TyName) -> bool
    ensures { result ≡ is_ref name.now }
{
    match &name.owner {
        Owner::Basis => name.number == REF,
        _ => false,
    }
}

/// Whether types under this symbol are equality types. Of `ref` they are, whatever stands below it.
pub fn symbol_equality(symbol: &Symbol) -> Equality
    ensures { result ≡ equality_of symbol.now }
{
    match symbol {
        Symbol::Arrow => Equality::Never,
        Symbol::Record(_) => Equality::ByParts,
        Symbol::Name(name) => {
            if names_ref(name) {
                Equality::Always
            } else if name.eq {
                Equality::ByParts
            } else {
                Equality::Never
            }
        }
    }
}
