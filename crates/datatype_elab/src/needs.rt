//! What the equality of a type needs of the new types.

ghost use Rattle.std.specs.Prelude.{◌≡◌};
ghost use Rattle.datatype_elab.specs.Wants.{need_is, need_in, new_place, known_need};

use cm_base::Text;
use semantic_objects::{Owner, Symbol, TyName};
use unification::{Equality, symbol_equality};

/// The names of a declaration: so many of a unit from a first one on.
#[derive(Drop)]
pub(crate) struct NewNames {
    pub(crate) home: Text,
    pub(crate) first: u64,
    pub(crate) count: usize,
}

/// What a symbol asks of its parts so that a type under it admits equality: it never does, it does whatever they are, it
/// does where they do, or where they do and the new type at a place does.
#[derive(Clone, Copy, Debug, PartialEq, Eq)]
pub(crate) enum Need {
    Never,
    Always,
    OfParts,
    OfNew(usize),
}

/// The place of a name among the new ones.
pub(crate) fn place_of(new: &NewNames, name: &TyName) -> Option<usize>
    ensures { result ≡ new_place new.now name.now }
{
    let Owner::Unit(unit) = &name.owner else {
        return None;
    };
    if new.home != *unit || name.number < new.first {
        return None;
    }
    match usize::try_from(name.number - new.first) {
        Ok(place) => { if place < new.count { Some(place) } else { None } }
        Err(_) => None,
    }
}

/// What a symbol that isn't a new name asks.
fn known_need(symbol: &Symbol) -> Need
    ensures { need_is result ≡ known_need symbol.now }
{
    match symbol_equality(symbol) {
        Equality::Never => Need::Never,
        Equality::Always => Need::Always,
        Equality::ByParts => Need::OfParts,
    }
}

/// What a symbol asks.
pub(crate) fn need_of(new: &NewNames, symbol: &Symbol) -> Need
    ensures { need_is result ≡ need_in new.now symbol.now }
{
    match symbol {
        Symbol::Name(name) => match place_of(new, name) {
            Some(place) => Need::OfNew(place),
            None => known_need(symbol),
        },
        _ => known_need(symbol),
    }
}
