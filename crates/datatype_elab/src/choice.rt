//! Which datatypes of a declaration admit equality.

ghost use Rattle.std.specs.Prelude.{◌≡◌, ◌++◌, ◌∷◌, [], length, map, replicate, IfOk, OnOk};
ghost use Rattle.type_nodes.specs.Tables.{Table};
ghost use Rattle.static_semantics.specs.DatatypeInference.{equality_choice};
ghost use Rattle.datatype_elab.specs.Listing.{dat_of, AreDats};
ghost use Rattle.datatype_elab.specs.Wants.{need_in, AddsWants};
ghost use Rattle.datatype_elab.specs.Choosing.{argument_wanted, cons_wanted, dat_wanted, has_none, AddsHolder, AddsWanted, AddsHolders, Gathered};

use crate::cons::ConRead;
use crate::dats::DatRead;
use crate::needs::NewNames;
use crate::wants::add_wants;
use cm_base::{List, NoMemory};
use equality_laws::greatest_choices_are_taken;
use equality_types::greatest_choice;
use listed_types::ListedType;
use std::alloc::Global;

/// Adds what the equality of an argument needs, if there is one.
fn add_argument(
    alloc: Global,
    new: &NewNames,
    arg: &Option<ListedType>,
    found: &mut List<Option<usize>>,
) -> Result<(), NoMemory>
    ensures { OnOk result (AddsWants (argument_wanted (need_in new.now) arg.now) found.old found.new) }
{
    match arg {
        Some(arg) => add_wants(alloc, new, arg.tree.nodes(), found),
        None => Ok(()),
    }
}

/// What the equality of all arguments of a datatype needs.
fn wants_of(
    alloc: Global,
    new: &NewNames,
    cons: &[ConRead],
) -> Result<List<Option<usize>>, NoMemory>
    ensures { IfOk result (AddsWants (cons_wanted (need_in new.now) cons.now) []) }
{
    let mut found = List::new(alloc);
    for con in cons {
        add_argument(alloc, new, &con.arg, &mut found)?;
    }
    Ok(found)
}

/// Whether something stands against it.
fn bars(wants: &[Option<usize>]) -> bool
    ensures { result ≡ has_none wants.now }
{
    for want in wants {
        if want.is_none() {
            return true;
        }
    }
    false
}

/// So many empty lists.
fn empty_lists(alloc: Global, count: usize) -> Result<Vec<List<usize>>, NoMemory>
    ensures { IfOk result (λ lists. lists.items ≡ replicate count []) }
{
    let mut lists = Vec::new(alloc);
    for _at in 0..count {
        lists.push(List::new(alloc))?;
    }
    Ok(lists)
}

/// Adds a holder to a type's list.
fn add_holder(holders: &mut [List<usize>], part: usize, at: usize) -> Result<(), NoMemory>
    ensures { OnOk result (AddsHolder holders.old holders.new part at) }
{
    if part >= holders.len() {
        return Err(NoMemory);
    }
    match holders[part].push(at) {
        Ok(()) => Ok(()),
        Err(_) => Err(NoMemory),
    }
}

/// The same of what is wanted, if that is a type.
fn add_wanted(holders: &mut [List<usize>], want: Option<usize>, at: usize) -> Result<(), NoMemory>
    ensures { OnOk result (AddsWanted holders.old holders.new want at) }
{
    match want {
        Some(part) => add_holder(holders, part, at),
        None => Ok(()),
    }
}

/// Adds a holder to the lists of all types that it needs.
fn add_holders(
    holders: &mut [List<usize>],
    wants: &[Option<usize>],
    at: usize,
) -> Result<(), NoMemory>
    ensures { OnOk result (AddsHolders holders.old holders.new wants.now at) }
{
    for want in wants {
        add_wanted(holders, *want, at)?;
    }
    Ok(())
}

/// Adds a datatype: whether something stands against its equality, and which types it holds.
fn add_dat(
    alloc: Global,
    new: &NewNames,
    dat: &DatRead,
    at: usize,
    barred: &mut List<bool>,
    holders: &mut [List<usize>],
) -> Result<(), NoMemory>
    ensures barred { OnOk result (barred.new ≡ barred.old ++ has_none (dat_wanted (need_in new.now) dat.now) ∷ []) }
    ensures holders { OnOk result (AddsHolders holders.old holders.new (dat_wanted (need_in new.now) dat.now) at) }
{
    let wants = wants_of(alloc, new, dat.cons.as_slice())?;
    barred.add(bars(wants.as_slice()))?;
    add_holders(holders, wants.as_slice(), at)
}

/// Adds all datatypes.
fn gather(
    alloc: Global,
    new: &NewNames,
    dats: &[DatRead],
    barred: &mut List<bool>,
    holders: &mut [List<usize>],
) -> Result<(), NoMemory>
    requires barred { barred.old ≡ [] }
    requires holders { holders.old ≡ replicate (length dats.now) [] }
    ensures { OnOk result (Gathered (need_in new.now) dats.now (length dats.now) barred.new holders.new) }
{
    for at in 0..dats.len() {
        add_dat(alloc, new, &dats[at], at, barred, holders)?;
    }
    Ok(())
}

/// Which datatypes of a declaration admit equality, as far as they can together: in as many steps as their types have
/// nodes and parts of these.
pub(crate) fn choose(
    alloc: Global,
    new: &NewNames,
    dats: &List<DatRead>,
) -> Result<List<bool>, NoMemory>
    requires { new.now.count ≡ length dats.now }
    ensures { IfOk result (λ choice. (t : Table) → AreDats t dats.now
        → choice ≡ equality_choice new.now.home new.now.first (map (dat_of t) dats.now)) }
{
    let mut barred = List::new(alloc);
    let mut lists = empty_lists(alloc, dats.len())?;
    gather(alloc, new, dats.as_slice(), &mut barred, &mut lists)?;
    greatest_choices_are_taken();
    let holders = List::from_vec(lists);
    greatest_choice(alloc, &barred, &holders)
}
