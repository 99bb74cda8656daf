//! Names in place of others.

ghost use Rattle.std.specs.Prelude.{◌≡◌, ◌+◌, ◌<◌, ◌++◌, drop, length, IfOk, OnOk};
ghost use Rattle.type_walks.specs.Replaced.{rows_of};
ghost use Rattle.module_semantics.specs.SignatureNames.{rows_between};

use cm_base::{List, NoMemory};
use environment_walks::{Realisation, Replace};
use semantic_objects::TyName;
use signature_sealing::own_function;
use std::alloc::Global;

/// Adds the row for a place, where both lists have a name there.
fn add_row(
    alloc: Global,
    list: &mut List<Replace>,
    olds: &[TyName],
    news: &[TyName],
    at: usize,
) -> Result<(), NoMemory>
    requires { at < length olds.now }
    ensures { OnOk result (rows_of list.new ++ rows_between (drop (at + 1) olds.now) (drop (at + 1) news.now)
        ≡ rows_of list.old ++ rows_between (drop at olds.now) (drop at news.now)) }
{
    match news.get(at) {
        Some(new) => {
            let name = olds[at].copy()?;
            let by = own_function(alloc, new)?;
            list.add(Replace { name, by })
        }
        None => Ok(()),
    }
}

/// The realisation that puts one name for another, place by place.
pub(crate) fn rows_between(
    alloc: Global,
    olds: &[TyName],
    news: &[TyName],
) -> Result<Realisation, NoMemory>
    ensures { IfOk result (λ by. rows_of by.list ≡ rows_between olds.now news.now) }
{
    let mut list = List::new(alloc);
    for at in 0..olds.len() {
        add_row(alloc, &mut list, olds, news, at)?;
    }
    Ok(Realisation { list })
}
