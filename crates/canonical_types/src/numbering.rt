//! Type names with their places in a list for their numbers.

ghost use Rattle.std.specs.Prelude.{◌≡◌, map, filter, IfOk, true, false};
ghost use Rattle.realisation.specs.Names.{is_listed};
ghost use Rattle.realisation.specs.Canonical.{is_own, is_bound_name};
ghost use Rattle.canonical_types.specs.Orders.{by_order, is_of};

use cm_base::{List, NoMemory, Text};
use semantic_objects::{Owner, TyName};
use std::alloc::Global;
use std::marker::Model;
use type_walks::NameTable;

/// Names in an order. Each gets its place there for its number, and all others stay.
#[derive(Drop)]
pub struct Numbering {
    table: NameTable,
}

impl Model for Numbering {
    ghost use Rattle.std.specs.Prelude.{List};
    ghost use Rattle.std.specs.Coded.{coded_list};
    ghost use Rattle.semantic_objects.specs.declared.name.TyName.{TyName};
    ghost use Rattle.semantic_objects.specs.contracts.name.TyName as name;
    ghost use Rattle.type_walks.specs.Tables.{AreTold};

    ghost Value = { List TyName };

    ghost coded = { coded_list name.the_row.coded };

    ghost view = { λ n. n.table.names };

    ghost invariant = { λ n. AreTold n.table };
}

impl Numbering {
    /// The names of a list in their order.
    pub fn new(alloc: Global, names: &List<TyName>) -> Result<Numbering, NoMemory>
        ensures { IfOk result (λ made. made ≡ names.now) }
    {
        let mut table = NameTable::new(alloc);
        for name in names.as_slice() {
            table.add(name.copy()?)?;
        }
        Ok(Numbering { table })
    }

    /// A name with its number.
    pub fn renamed(&self, name: &TyName) -> Result<TyName, NoMemory>
        ensures { IfOk result (λ made. made ≡ by_order self.now name.now) }
    {
        let mut made = name.copy()?;
        match self.table.place_of(name)? {
            Some(place) => {
                made.number = place as u64;
                Ok(made)
            }
            None => Ok(made),
        }
    }

    /// Whether a name is one of these.
    fn has(&self, name: &TyName) -> Result<bool, NoMemory>
        ensures { IfOk result (λ has. has ≡ is_listed name.now self.now) }
    {
        Ok(self.table.place_of(name)?.is_some())
    }

    /// Some names with their numbers.
    pub fn renamed_all(&self, alloc: Global, names: &List<TyName>) -> Result<List<TyName>, NoMemory>
        ensures { IfOk result (λ made. made ≡ map (by_order self.now) names.now) }
    {
        let mut made = List::new(alloc);
        for name in names.as_slice() {
            made.add(self.renamed(name)?)?;
        }
        Ok(made)
    }
}

/// Whether a unit owns a name.
fn is_own(name: &TyName, home: &Text) -> bool
    ensures { result ≡ is_own home.now name.now }
{
    match &name.owner {
        Owner::Unit(unit) => unit.as_bytes() == home.as_bytes(),
        Owner::Basis => false,
        Owner::Bound => false,
    }
}

/// Those of some names that a unit owns.
pub fn own_names(alloc: Global, names: &List<TyName>, home: &Text) -> Result<List<TyName>, NoMemory>
    ensures { IfOk result (λ own. own ≡ filter (is_own home.now) names.now) }
{
    let mut own = List::new(alloc);
    for name in names.as_slice() {
        if is_own(name, home) {
            own.add(name.copy()?)?;
        }
    }
    Ok(own)
}

/// Whether a binder owns a name.
fn is_bound(name: &TyName) -> bool
    ensures { result ≡ is_bound_name name.now }
{
    matches!(&name.owner, Owner::Bound)
}

/// Those of some names that a binder owns.
pub fn bound_names(alloc: Global, names: &List<TyName>) -> Result<List<TyName>, NoMemory>
    ensures { IfOk result (λ bound. bound ≡ filter is_bound_name names.now) }
{
    let mut bound = List::new(alloc);
    for name in names.as_slice() {
        if is_bound(name) {
            bound.add(name.copy()?)?;
        }
    }
    Ok(bound)
}

/// Those of some names that are among others, or those that aren't.
fn names_of(
    alloc: Global,
    names: &List<TyName>,
    among: &Numbering,
    are: bool,
) -> Result<List<TyName>, NoMemory>
    ensures { IfOk result (λ of. of ≡ filter (is_of among.now are) names.now) }
{
    let mut of = List::new(alloc);
    for name in names.as_slice() {
        if among.has(name)? == are {
            of.add(name.copy()?)?;
        }
    }
    Ok(of)
}

/// The names that a functor binds: those of its parameter, and the further ones.
#[derive(Drop)]
pub struct FunctorNames {
    pub of_param: List<TyName>,
    pub further: List<TyName>,
}

/// The names of a functor that binds these for its parameter.
pub fn functor_names(
    alloc: Global,
    names: &List<TyName>,
    bound: &List<TyName>,
) -> Result<FunctorNames, NoMemory>
    ensures of_param { IfOk result (λ made.
        made.of_param ≡ filter (is_of bound.now true) (filter is_bound_name names.now)) }
    ensures further { IfOk result (λ made.
        made.further ≡ filter (is_of bound.now false) (filter is_bound_name names.now)) }
{
    let among = Numbering::new(alloc, bound)?;
    let names = bound_names(alloc, names)?;
    Ok(FunctorNames {
        of_param: names_of(alloc, &names, &among, true)?,
        further: names_of(alloc, &names, &among, false)?,
    })
}
