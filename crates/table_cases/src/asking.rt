//! Steps that ask for what stands in the table, and those that make types one or compare schemes.

ghost use Rattle.std.specs.Prelude.{◌≡◌, ◌∷◌, [], IfOk};
ghost use Rattle.type_nodes.specs.Tables.{Has};

use crate::scene::{TableScene, bytes_line, id_of, ids_of, number_line};
use case_files::{Part, number_of, push_parts};
use cm_base::{List, NoMemory, Text};
use sml_types::{Look, TyId, TypeFault, TypeTable};
use std::alloc::Global;
use type_printing::push_scheme;

/// What a unification answers. Want of memory is handed on.
pub fn said(answer: Result<(), TypeFault>) -> Result<&'static [u8], NoMemory> {
    match answer {
        Ok(()) => Ok(b"one"),
        Err(TypeFault::Clash(_, _)) => Ok(b"clash"),
        Err(TypeFault::Circular(_, _)) => Ok(b"circular"),
        Err(TypeFault::NotEquality(_)) => Ok(b"not equality"),
        Err(TypeFault::NoMemory) => Err(NoMemory),
    }
}

/// Adds the text of a type, in which all variables are free.
pub fn push_type(
    alloc: Global,
    table: &mut TypeTable,
    ty: TyId,
    out: &mut Vec<u8>,
) -> Result<(), NoMemory>
    requires { Has table.old ty }
    ensures { table.new ≡ table.old }
{
    let kept = alone(alloc, ty)?;
    let scheme = table.generalise(ty, &kept)?;
    push_scheme(alloc, out, &scheme)
}

/// A list of one id.
pub fn alone(alloc: Global, id: TyId) -> Result<List<TyId>, NoMemory>
    ensures { IfOk result (λ ids. ids ≡ id ∷ []) }
{
    let mut ids = List::new(alloc);
    ids.add(id)?;
    Ok(ids)
}

/// What is said of a variable.
fn variable_said(eq: bool, rigid: bool) -> &'static [u8] {
    match (eq, rigid) {
        (false, false) => b"variable",
        (true, false) => b"equality variable",
        (false, true) => b"rigid variable",
        (true, true) => b"rigid equality variable",
    }
}

/// What is said of a type by what stands there: of a record its labels in their order, of a name how many arguments it
/// has.
fn look_line(alloc: Global, look: &Look) -> Result<Vec<u8>, NoMemory> {
    let mut out = Vec::new(alloc);
    match look {
        Look::Variable { eq, rigid } => {
            push_parts(alloc, &mut out, &[Part::Text(variable_said(*eq, *rigid))])?
        }
        Look::Record(fields) => {
            push_parts(alloc, &mut out, &[Part::Text(b"record")])?;
            for field in fields.as_slice() {
                push_parts(
                    alloc,
                    &mut out,
                    &[Part::Text(b" "), Part::Text(field.label.as_bytes())],
                )?;
            }
        }
        Look::Arrow(_, _) => push_parts(alloc, &mut out, &[Part::Text(b"arrow")])?,
        Look::Named(name, args) => push_parts(
            alloc,
            &mut out,
            &[
                Part::Text(b"name "),
                Part::Number(name.number),
                Part::Text(b" of "),
                Part::Number(args.len() as u64),
            ],
        )?,
    }
    push_parts(alloc, &mut out, &[Part::Text(b"\n")])?;
    Ok(out)
}

impl TableScene {
    /// The text of a type.
    fn type_line(&mut self, ty: &Text) -> Result<Option<Vec<u8>>, NoMemory> {
        let Some(ty) = id_of(&self.table, &self.ids, ty) else {
            return Ok(None);
        };
        let mut out = Vec::new(self.alloc);
        push_type(self.alloc, &mut self.table, ty, &mut out)?;
        push_parts(self.alloc, &mut out, &[Part::Text(b"\n")])?;
        Ok(Some(out))
    }

    /// The text of a scheme.
    fn show(&self, number: &Text) -> Result<Option<Vec<u8>>, NoMemory> {
        let Some(number) = number_of(number.as_bytes()) else {
            return Ok(None);
        };
        let Some(scheme) = self.schemes.get(number as usize) else {
            return Ok(None);
        };
        let mut out = Vec::new(self.alloc);
        push_scheme(self.alloc, &mut out, scheme)?;
        push_parts(self.alloc, &mut out, &[Part::Text(b"\n")])?;
        Ok(Some(out))
    }

    /// What stands at an id.
    fn look(&self, ty: &Text) -> Result<Option<Vec<u8>>, NoMemory> {
        let Some(ty) = id_of(&self.table, &self.ids, ty) else {
            return Ok(None);
        };
        let look = self.table.look(ty)?;
        Ok(Some(look_line(self.alloc, &look)?))
    }

    /// How many nodes a type has as a tree.
    fn size(&self, ty: &Text) -> Result<Option<Vec<u8>>, NoMemory> {
        let Some(ty) = id_of(&self.table, &self.ids, ty) else {
            return Ok(None);
        };
        let size = self.table.tree_size(ty)?;
        number_line(self.alloc, u64::from(size))
    }

    /// Makes two types one.
    fn unify(&mut self, left: &Text, right: &Text) -> Result<Option<Vec<u8>>, NoMemory> {
        let Some(left) = id_of(&self.table, &self.ids, left) else {
            return Ok(None);
        };
        let Some(right) = id_of(&self.table, &self.ids, right) else {
            return Ok(None);
        };
        let said = said(self.table.unify(left, right))?;
        bytes_line(self.alloc, said)
    }

    /// Compares the schemes of two types, closed but for the variables of others.
    fn covers(
        &mut self,
        general: &Text,
        special: &Text,
        kept: &[Text],
    ) -> Result<Option<Vec<u8>>, NoMemory> {
        let Some(general) = id_of(&self.table, &self.ids, general) else {
            return Ok(None);
        };
        let Some(special) = id_of(&self.table, &self.ids, special) else {
            return Ok(None);
        };
        let Some(kept) = ids_of(self.alloc, &self.table, &self.ids, kept)? else {
            return Ok(None);
        };
        let general = self.table.generalise(general, &kept)?;
        let special = self.table.generalise(special, &kept)?;
        let covers = self.table.covers(&general, &special)?;
        bytes_line(self.alloc, if covers { b"covers" } else { b"does not" })
    }

    /// What is answered to a step that asks.
    pub fn asking_step(
        &mut self,
        step: &[u8],
        words: &[Text],
    ) -> Result<Option<Vec<u8>>, NoMemory> {
        match (step, words) {
            (b"type", [ty]) => self.type_line(ty),
            (b"show", [number]) => self.show(number),
            (b"look", [ty]) => self.look(ty),
            (b"size", [ty]) => self.size(ty),
            (b"unify", [left, right]) => self.unify(left, right),
            (b"covers", [general, special, kept @ ..]) => self.covers(general, special, kept),
            (b"undone", [left, right]) => self.undone(left, right),
            (b"declare", [first, second]) => self.declare(first, second),
            _ => Ok(None),
        }
    }
}
