//! Type functions in place of type names.

ghost use Rattle.std.specs.Prelude.{◌≡◌, IfOk};
ghost use Rattle.std.specs.Option.{option_copied};
ghost use Rattle.type_walks.specs.Replaced.{function_for};

use crate::names::NameTable;
use cm_base::{List, NoMemory};
use semantic_objects::{Symbol, TyName, TypeFn};
use std::alloc::Global;
use std::marker::Model;

/// A type name, and the type function that is put in its place.
#[derive(Drop)]
pub struct Replace {
    pub name: TyName,
    pub by: TypeFn,
}

/// A realisation: type functions for some type names. Of two for one name the first counts. An argument that a type
/// function has and its name doesn't stands for the empty record.
/// The Definition of Standard ML (Revised), section 5.2.
#[derive(Drop)]
pub struct Realisation {
    pub list: List<Replace>,
}

/// A realisation whose names are looked up in a table.
#[derive(Drop)]
pub struct Replacements {
    list: List<Replace>,
    table: NameTable,
}

impl Model for Replacements {
    ghost use Rattle.std.specs.Prelude.{List};
    ghost use Rattle.type_walks.specs.declared.replacing.Replace.{Replace};
    ghost use Rattle.type_walks.specs.Replaced.{IsReady};
    ghost use Rattle.std.specs.Coded.{coded_list};
    ghost use Rattle.type_walks.specs.contracts.replacing.Replace as replace;

    ghost Value = { List Replace };

    ghost coded = { coded_list replace.the_row.coded };

    ghost view = { λ r. r.list };

    ghost invariant = { λ r. IsReady r.table r.list };
}

/// The same name and type function.
fn copy_replace(alloc: Global, replace: &Replace) -> Result<Replace, NoMemory>
    ensures { IfOk result (λ copy. copy ≡ replace.now) }
{
    Ok(Replace {
        name: replace.name.copy()?,
        by: TypeFn {
            arity: replace.by.arity,
            body: replace.by.body.copy(alloc)?,
        },
    })
}

impl Replacements {
    /// A realisation with its table.
    pub fn new(alloc: Global, by: &Realisation) -> Result<Replacements, NoMemory>
        ensures { IfOk result (λ made. made ≡ by.now.list) }
    {
        let mut list = List::new(alloc);
        let mut table = NameTable::new(alloc);
        for replace in by.list.as_slice() {
            let copy = copy_replace(alloc, replace)?;
            table.add(copy.name.copy()?)?;
            list.add(copy)?;
        }
        Ok(Replacements { list, table })
    }

    /// The type function that is put for a symbol, if it is a name that has one.
    pub(crate) fn function_of(&self, symbol: &Symbol) -> Result<Option<&TypeFn>, NoMemory>
        ensures { IfOk result (λ found. option_copied found ≡ function_for self.now symbol.now) }
    {
        match symbol {
            Symbol::Name(name) => match self.table.place_of(name)? {
                Some(place) => match self.list.get(place) {
                    Some(replace) => Ok(Some(&replace.by)),
                    None => Err(NoMemory),
                },
                None => Ok(None),
            },
            Symbol::Arrow => Ok(None),
            Symbol::Record(_) => Ok(None),
        }
    }
}
