//! The skeleton of a unit.

ghost use Rattle.std.specs.Prelude.{◌≡◌, [], ◌∷◌, ◌++◌, IfOk, OnOk, map};
ghost use Rattle.std.specs.List.{list_any, flat_map};
ghost use Rattle.skeletons.specs.Skeletons.{spot, top_spots, is_sure_use, need_of, free_of, unit_uses, skeleton_of};
ghost use Rattle.skeletons.specs.Tables.{AreSure};

use crate::first_places::{copied, firsts};
use crate::places::in_order;
use crate::walk::{Walk, module_name};
use crate::walk_unit::walk_topdecs;
use cm_base::{List, ModName, Namespace, Need, NoMemory, Skeleton, Spot};
use indexmap::IndexSet;
use sml_trees::{BareUnit, FunBind, FunsigBind, Name, SigBind, StrBind, TopDec};
use std::alloc::Global;

/// Adds a name of a name space at its place.
fn add_spot(found: &mut List<Spot>, space: Namespace, name: &Name) -> Result<(), NoMemory>
    ensures { OnOk result (found.new ≡ found.old ++ spot space name.now ∷ []) }
{
    found.add(Spot {
        name: module_name(space, name)?,
        line: name.line,
        col: name.col,
    })
}

/// What is bound under a name at the top level.
trait Bound {
    ghost use Rattle.sml_trees.specs.declared.name.Name.{Name};

    ghost bound: { Self → Name };

    fn name(&self) -> &Name
        ensures { result.now ≡ bound self.now };
}

impl Bound for StrBind {
    ghost bound = { λ bind. bind.name };

    fn name(&self) -> &Name {
        &self.name
    }
}

impl Bound for SigBind {
    ghost bound = { λ bind. bind.name };

    fn name(&self) -> &Name {
        &self.name
    }
}

impl Bound for FunBind {
    ghost bound = { λ bind. bind.name };

    fn name(&self) -> &Name {
        &self.name
    }
}

impl Bound for FunsigBind {
    ghost bound = { λ bind. bind.name };

    fn name(&self) -> &Name {
        &self.name
    }
}

/// Adds the names of some bindings, each at its place.
fn add_spots<T: Bound>(
    found: &mut List<Spot>,
    space: Namespace,
    binds: &[T],
) -> Result<(), NoMemory>
    ensures { OnOk result (found.new ≡ found.old ++ map (λ bind. spot space (T.bound bind)) binds.now) }
{
    for bind in binds {
        add_spot(found, space, bind.name())?;
    }
    Ok(())
}

fn add_topdec(found: &mut List<Spot>, topdec: &TopDec) -> Result<(), NoMemory>
    ensures { OnOk result (found.new ≡ found.old ++ top_spots topdec.now) }
{
    match topdec {
        TopDec::Structures(binds, _) => add_spots(found, Namespace::Structure, binds.as_slice()),
        TopDec::Signatures(binds, _) => add_spots(found, Namespace::Signature, binds.as_slice()),
        TopDec::Functors(binds, _) => add_spots(found, Namespace::Functor, binds.as_slice()),
        TopDec::Funsigs(binds, _) => add_spots(found, Namespace::Funsig, binds.as_slice()),
    }
}

/// The names that a top level defines, each as often as it is defined.
fn top_spots(alloc: Global, topdecs: &[TopDec]) -> Result<List<Spot>, NoMemory>
    ensures { IfOk result (λ list. list ≡ flat_map top_spots topdecs.now) }
{
    let mut found = List::new(alloc);
    for topdec in topdecs {
        add_topdec(&mut found, topdec)?;
    }
    Ok(found)
}

/// The free uses of a top level.
fn uses(alloc: Global, topdecs: &[TopDec]) -> Result<List<Need>, NoMemory>
    ensures { IfOk result (λ list. list ≡ unit_uses topdecs.now) }
{
    let mut walk = Walk::new(alloc);
    walk_topdecs(&mut walk, topdecs)?;
    let Walk { uses, .. } = walk;
    Ok(uses)
}

/// The names of which one use is sure.
fn sure_names(alloc: Global, uses: &[Need]) -> Result<IndexSet<ModName>, NoMemory>
    ensures { IfOk result (λ names. AreSure uses.now names) }
{
    let mut names = IndexSet::new(alloc);
    for need in uses {
        if need.sure {
            names.insert(copied(&need.spot.name)?)?;
        }
    }
    Ok(names)
}

/// The places of uses.
fn spots(alloc: Global, uses: List<Need>) -> Result<List<Spot>, NoMemory>
    ensures { IfOk result (λ list. list ≡ map (λ need. need.spot) uses) }
{
    let mut list = List::new(alloc);
    for need in uses.into_vec() {
        list.add(need.spot)?;
    }
    Ok(list)
}

/// The names at these places, sure where one of their uses is.
fn needs(
    alloc: Global,
    names: &IndexSet<ModName>,
    spots: List<Spot>,
) -> Result<List<Need>, NoMemory>
    ensures { (uses : List Need) → AreSure uses names.now → IfOk result (λ list. list ≡ map (need_of uses) spots) }
{
    let mut list = List::new(alloc);
    for spot in spots.into_vec() {
        let sure = names.contains(&spot.name);
        list.add(Need { spot, sure })?;
    }
    Ok(list)
}

/// The free names of uses, in the order of their first places.
fn free(alloc: Global, uses: List<Need>) -> Result<List<Need>, NoMemory>
    ensures { IfOk result (λ list. list ≡ free_of uses) }
{
    let names = sure_names(alloc, uses.as_slice())?;
    let places = firsts(alloc, spots(alloc, in_order(alloc, uses)?)?)?;
    needs(alloc, &names, places)
}

/// The skeleton of a unit: the module names that its top level defines, in written order, each at its first place,
/// and those that it uses where no binding of them is in scope, in the order of their first places. It refuses only
/// for want of memory. docs/language.md has the rules of scope.
pub fn skeleton(alloc: Global, unit: &BareUnit) -> Result<Skeleton, NoMemory>
    ensures { IfOk result (λ skeleton. skeleton ≡ skeleton_of unit.now) }
{
    let topdecs = unit.topdecs.as_slice();
    Ok(Skeleton {
        defined: firsts(alloc, top_spots(alloc, topdecs)?)?,
        free: free(alloc, uses(alloc, topdecs)?)?,
    })
}
