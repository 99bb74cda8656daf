//! Nodes as keys, by which an equal one is found.

ghost use Rattle.std.specs.Prelude.{◌≡◌, IfOk};
ghost use Rattle.type_schemes.specs.Keys.{owner_of, name_of, symbol_of};

use cm_base::{NoMemory, Text};
use semantic_objects::{Owner, Symbol, TyName};

/// An owner of a type name as a part of a key.
#[derive(PartialEq, Eq, Hash, Drop)]
pub(crate) enum OwnerKey {
    Basis,
    Unit(Text),
    Bound,
}

/// A type name as a part of a key.
#[derive(PartialEq, Eq, Hash, Drop)]
pub(crate) struct NameKey {
    pub(crate) owner: OwnerKey,
    pub(crate) number: u64,
    pub(crate) arity: u32,
    pub(crate) eq: bool,
}

/// A symbol as a part of a key.
#[derive(PartialEq, Eq, Hash, Drop)]
pub(crate) enum SymbolKey {
    Arrow,
    Record(Vec<Text>),
    Name(NameKey),
}

/// A symbol over places as a key.
#[derive(PartialEq, Eq, Hash, Drop)]
pub(crate) struct NodeKey {
    pub(crate) symbol: SymbolKey,
    pub(crate) places: Vec<usize>,
}

/// The key of an owner.
fn owner_key(owner: &Owner) -> Result<OwnerKey, NoMemory>
    ensures { IfOk result (λ key. owner_of key ≡ owner.now) }
{
    match owner {
        Owner::Basis => Ok(OwnerKey::Basis),
        Owner::Unit(unit) => Ok(OwnerKey::Unit(unit.copy()?)),
        Owner::Bound => Ok(OwnerKey::Bound),
    }
}

/// The key of a type name.
fn name_key(name: &TyName) -> Result<NameKey, NoMemory>
    ensures { IfOk result (λ key. name_of key ≡ name.now) }
{
    let owner = owner_key(&name.owner)?;
    Ok(NameKey {
        owner,
        number: name.number,
        arity: name.arity,
        eq: name.eq,
    })
}

/// The key of a symbol.
pub(crate) fn symbol_key(symbol: &Symbol) -> Result<SymbolKey, NoMemory>
    ensures { IfOk result (λ key. symbol_of key ≡ symbol.now) }
{
    match symbol {
        Symbol::Arrow => Ok(SymbolKey::Arrow),
        Symbol::Record(labels) => Ok(SymbolKey::Record(labels.clone()?.into_vec())),
        Symbol::Name(name) => Ok(SymbolKey::Name(name_key(name)?)),
    }
}
