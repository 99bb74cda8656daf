//! Whether the type names that an interface writes fit to those that are known.

ghost use Rattle.std.specs.Prelude.{◌≡◌, ◌++◌, not, ◌||◌, ◌&&◌, IfOk, OnOk};
ghost use Rattle.std.specs.List.{list_all};
ghost use Rattle.realisation.specs.Canonical.{is_bound_name};
ghost use Rattle.initial_basis.specs.Basis.{basis_type_names};
ghost use Rattle.imported_interfaces.specs.Usable.{is_of_basis, is_of_another};
ghost use Rattle.imported_interfaces.specs.Known.{AreKept, may_stand, fits, noted, noted_all};

use crate::known::{KnownNames, Standing};
use cm_base::{List, NoMemory, Text};
use initial_basis::basis_type_names;
use semantic_objects::{Owner, TyName};
use std::alloc::Global;

/// Whether a name is bound by a signature or a functor.
fn is_bound(name: &TyName) -> bool
    ensures { result ≡ is_bound_name name.now }
{
    match name.owner {
        Owner::Bound => true,
        Owner::Basis | Owner::Unit(_) => false,
    }
}

fn is_of_basis(owner: &Owner) -> bool
    ensures { result ≡ is_of_basis owner.now }
{
    match owner {
        Owner::Basis => true,
        Owner::Unit(_) | Owner::Bound => false,
    }
}

/// Whether a name is owned by another unit than this one, or by none.
fn is_of_another(unit: &Text, name: &TyName) -> bool
    ensures { result ≡ is_of_another unit.now name.now }
{
    match &name.owner {
        Owner::Unit(owner) => owner.as_bytes() != unit.as_bytes(),
        Owner::Basis | Owner::Bound => true,
    }
}

/// Whether a name of which this is known may be written: a new one isn't of the basis.
fn may_stand(is: Standing, owner: &Owner) -> bool
    ensures { result ≡ may_stand is owner.now }
{
    match is {
        Standing::New => !is_of_basis(owner),
        Standing::Same => true,
        Standing::Other => false,
    }
}

/// Whether a name fits: it is bound, or it isn't owned by the unit and no other name is known in its place.
fn fits(known: &KnownNames, unit: &Text, name: &TyName) -> Result<bool, NoMemory>
    requires { AreKept known.now }
    ensures { IfOk result (λ fit. fit ≡ fits known.now.names unit.now name.now) }
{
    if is_bound(name) {
        return Ok(true);
    }
    if !is_of_another(unit, name) {
        return Ok(false);
    }
    let is = known.standing(name)?;
    Ok(may_stand(is, &name.owner))
}

/// Whether all of some names fit.
pub fn all_fit(known: &KnownNames, unit: &Text, names: &List<TyName>) -> Result<bool, NoMemory>
    requires { AreKept known.now }
    ensures { IfOk result (λ fit. fit ≡ list_all (fits known.now.names unit.now) names.now) }
{
    for name in names.as_slice() {
        if !fits(known, unit, name)? {
            return Ok(false);
        }
    }
    Ok(true)
}

/// Notes a name, where it isn't bound and none is known in its place. After want of memory the names are of no use.
fn note(known: &mut KnownNames, name: &TyName) -> Result<(), NoMemory>
    requires { AreKept known.old }
    ensures names { OnOk result (known.new.names ≡ noted known.old.names name.now) }
    ensures kept { OnOk result (AreKept known.new) }
{
    if is_bound(name) {
        return Ok(());
    }
    match known.standing(name)? {
        Standing::New => known.add(name),
        Standing::Same | Standing::Other => Ok(()),
    }
}

/// Notes all of some names.
pub fn note_all(known: &mut KnownNames, names: &List<TyName>) -> Result<(), NoMemory>
    requires { AreKept known.old }
    ensures names { OnOk result (known.new.names ≡ noted_all known.old.names names.now) }
    ensures kept { OnOk result (AreKept known.new) }
{
    for name in names.as_slice() {
        note(known, name)?;
    }
    Ok(())
}

/// Adds some names.
fn add_all(known: &mut KnownNames, names: &List<TyName>) -> Result<(), NoMemory>
    requires { AreKept known.old }
    ensures names { OnOk result (known.new.names ≡ known.old.names ++ names.now) }
    ensures kept { OnOk result (AreKept known.new) }
{
    for name in names.as_slice() {
        known.add(name)?;
    }
    Ok(())
}

/// The type names of the initial basis as those that are known.
pub fn known_at_first(alloc: Global) -> Result<KnownNames, NoMemory>
    ensures names { IfOk result (λ known. known.names ≡ basis_type_names) }
    ensures kept { IfOk result AreKept }
{
    let names = basis_type_names(alloc)?;
    let mut known = KnownNames::new(alloc);
    add_all(&mut known, &names)?;
    Ok(known)
}
