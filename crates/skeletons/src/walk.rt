//! What a walk over a tree has found, and the scope that it is in.

ghost use Rattle.std.specs.Prelude.{◌≡◌, ◌≤◌, [], ◌∷◌, Some, true, false, IfOk, OnOk, length, map};
ghost use Rattle.skeletons.specs.Scopes.{is_sure, use_of, name_use, structure_use, qualifier_use, all_uses, opening, module_name};
ghost use Rattle.skeletons.specs.Walks.{noted, declared, closed, bound, shut};

use crate::names::Names;
use crate::noted::note_all;
use cm_base::{List, ModName, Namespace, Need, NoMemory, Spot, Text};
use sml_trees::{LongName, Name};
use std::alloc::Global;

/// A walk: the names that are bound, whether an `open` or an `include` is in scope, and the free uses so far.
#[derive(Drop)]
pub(crate) struct Walk {
    pub names: Names,
    pub opened: bool,
    pub uses: List<Need>,
}

/// A scope to come back to: how many bindings there were, and whether anything was opened.
#[derive(Clone, Copy, Debug)]
pub(crate) struct Mark {
    pub names: usize,
    pub opened: bool,
}

/// Whether a name of a name space can't come from an `open` or an `include`.
fn is_sure(space: Namespace, opened: bool) -> bool
    ensures { result ≡ is_sure space opened }
{
    match space {
        Namespace::Structure => !opened,
        Namespace::Signature | Namespace::Functor | Namespace::Funsig => true,
    }
}

/// The name of a module in a name space.
pub(crate) fn module_name(space: Namespace, name: &Name) -> Result<ModName, NoMemory>
    ensures { IfOk result (λ made. made ≡ module_name space name.now) }
{
    Ok(ModName {
        space,
        name: name.text.copy()?,
    })
}

impl Walk {
    /// A walk at the beginning of a unit.
    pub(crate) fn new(alloc: Global) -> Walk
        ensures names { result.names ≡ [] }
        ensures opened { result.opened ≡ false }
        ensures uses { result.uses ≡ [] }
    {
        Walk {
            names: Names::new(alloc),
            opened: false,
            uses: List::new(alloc),
        }
    }

    /// Notes the use of a name where no binding of it is in scope.
    fn note(&mut self, space: Namespace, text: &Text, line: u32, col: u32) -> Result<(), NoMemory>
        ensures { OnOk result (self.new ≡ noted self.old (use_of space text.now line col)) }
    {
        let name = ModName {
            space,
            name: text.copy()?,
        };
        if !self.names.binds(&name) {
            let sure = is_sure(space, self.opened);
            let spot = Spot { name, line, col };
            self.uses.add(Need { spot, sure })?;
        }
        Ok(())
    }

    /// Notes the use of a name of one part.
    pub(crate) fn name(&mut self, space: Namespace, name: &Name) -> Result<(), NoMemory>
        ensures { OnOk result (self.new ≡ noted self.old (name_use space name.now)) }
    {
        self.note(space, &name.text, name.line, name.col)
    }

    /// Notes the use of a structure by a long identifier.
    pub(crate) fn structure(&mut self, long: &LongName) -> Result<(), NoMemory>
        ensures { OnOk result (self.new ≡ noted self.old (structure_use long.now)) }
    {
        match long.parts.as_slice() {
            [first, ..] => self.note(Namespace::Structure, first, long.line, long.col),
            [] => Ok(()),
        }
    }

    /// Notes the use of the structure in which another long identifier is found, if it has one.
    pub(crate) fn qualifier(&mut self, long: &LongName) -> Result<(), NoMemory>
        ensures { OnOk result (self.new ≡ noted self.old (qualifier_use long.now)) }
    {
        match long.parts.as_slice() {
            [first, _, ..] => self.note(Namespace::Structure, first, long.line, long.col),
            _ => Ok(()),
        }
    }

    /// The scope of the walk, to come back to.
    pub(crate) fn mark(&self) -> Mark
        ensures names { result.names ≡ length self.now.names }
        ensures opened { result.opened ≡ self.now.opened }
    {
        Mark {
            names: self.names.len(),
            opened: self.opened,
        }
    }

    /// Ends all scopes that were begun since.
    pub(crate) fn close(&mut self, mark: Mark)
        ensures { self.new ≡ closed self.old mark }
    {
        self.names.leave(mark.names);
        self.opened = mark.opened;
    }

    /// Binds a name of a name space.
    pub(crate) fn bind(&mut self, space: Namespace, name: &Name) -> Result<(), NoMemory>
        ensures { OnOk result (self.new ≡ bound self.old (Some (module_name space name.now) ∷ [])) }
    {
        self.names.bind(module_name(space, name)?)
    }

    /// Opens structures for what stands after, and says so.
    #[tactic(auto, using(crate::proofs::Chains::chains))]
    pub(crate) fn open(&mut self, longs: &List<LongName>) -> Result<bool, NoMemory>
        ensures walked { OnOk result (self.new ≡ declared self.old (opening (all_uses (map structure_use longs.now)))) }
        ensures opens { IfOk result (λ opens. opens ≡ true) }
    {
        note_all(self, longs)?;
        self.opened = true;
        Ok(true)
    }

    /// Ends a `local`: hides what its first part bound, and leaves open what its second part opened.
    pub(crate) fn shut(&mut self, start: Mark, middle: Mark, opens: bool)
        requires order { start.names ≤ middle.names }
        requires within { middle.names ≤ length self.old.names }
        ensures { self.new ≡ shut self.old start middle opens }
    {
        self.names.hide(start.names, middle.names);
        self.opened = opens || start.opened;
    }
}
