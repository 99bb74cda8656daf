//! What a walk for a realisation finds.

ghost use Rattle.std.specs.Prelude.{◌≡◌, ◌∷◌, ◌++◌, ◌&&◌, [], IfOk, OnOk};
ghost use Rattle.std.specs.Option.{is_none, option_copied};
ghost use Rattle.realisation.specs.Names.{is_listed};
ghost use Rattle.realisation.specs.Realised.{of_rows};
ghost use Rattle.type_walks.specs.Replaced.{rows_of};
ghost use Rattle.module_semantics.specs.SignatureNames.{name_alone};
ghost use Rattle.module_semantics.specs.Matching.{if_flexible};
ghost use Rattle.structure_matching.specs.Searching.{IsSearch, Continues, Enters, Leaves};

use cm_base::{List, NoMemory, Text};
use environment_walks::Replace;
use function_forms::alone;
use semantic_objects::{TyName, TypeFn};
use type_walks::NameTable;

/// The structures that are entered, from the root of the signature on; the names that it binds; and what realises those
/// that were met.
#[derive(Drop)]
pub(crate) struct Search {
    pub(crate) path: List<Text>,
    pub(crate) bound: NameTable,
    pub(crate) rows: List<Replace>,
    pub(crate) realised: NameTable,
}

impl Search {
    /// Whether a name is one that the signature binds, and isn't realised yet.
    fn is_open(&self, name: &TyName) -> Result<bool, NoMemory>
        requires { IsSearch self.now }
        ensures { IfOk result (λ is. is
            ≡ (is_listed name.now self.now.bound.names && is_none (of_rows (rows_of self.now.rows) name.now))) }
    {
        if self.bound.place_of(name)?.is_none() {
            return Ok(false);
        }
        let realised = self.realised.place_of(name)?;
        Ok(realised.is_none())
    }

    /// The flexible name that a type function is alone, if nothing realises it yet.
    pub(crate) fn flexible<'a>(&self, function: &'a TypeFn) -> Result<Option<&'a TyName>, NoMemory>
        requires { IsSearch self.now }
        ensures { IfOk result (λ name. option_copied name
            ≡ if_flexible self.now.bound.names (rows_of self.now.rows) (name_alone function.now)) }
    {
        match alone(function)? {
            Some(name) => {
                if self.is_open(name)? {
                    Ok(Some(name))
                } else {
                    Ok(None)
                }
            }
            None => Ok(None),
        }
    }

    /// A type function realises a name.
    pub(crate) fn realise(&mut self, name: TyName, by: TypeFn) -> Result<(), NoMemory>
        requires { IsSearch self.old }
        ensures rows { OnOk result (rows_of self.new.rows ≡ rows_of self.old.rows ++ (name, by) ∷ []) }
        ensures continues { OnOk result (Continues self.old self.new) }
    {
        self.realised.add(name.copy()?)?;
        self.rows.add(Replace { name, by })
    }

    /// A structure is entered.
    pub(crate) fn enter(&mut self, name: &Text) -> Result<(), NoMemory>
        requires { IsSearch self.old }
        ensures { OnOk result (Enters self.old self.new name.now) }
    {
        let name = name.copy()?;
        self.path.add(name)
    }

    /// The structure that was entered last is left.
    pub(crate) fn leave(&mut self)
        requires { IsSearch self.old }
        ensures { Leaves self.old self.new }
    {
        self.path.pop();
    }
}
