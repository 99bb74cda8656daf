//! Steps with deep and wide types, whose time shows how the calls grow.

ghost use Rattle.std.specs.Prelude.{IfOk, OnOk};
ghost use Rattle.type_nodes.specs.Tables.{Has};
ghost use Rattle.type_schemes.specs.Schemes.{HaveAll};

use crate::asking::said;
use crate::labels::all_differ;
use crate::names::name_of;
use crate::scene::{TableScene, bytes_line, id_of, number_line};
use case_files::{Part, number_of, push_parts};
use cm_base::{List, NoMemory, Text};
use semantic_objects::Scheme;
use sml_types::{TyId, TypeTable};
use std::alloc::Global;

/// What stands around a type.
#[derive(Clone, Copy)]
enum Form {
    List,
    PairLeft,
    ArrowLeft,
    ArrowRight,
    Doubled,
    Instances,
}

/// The form of a step.
fn form_of(step: &[u8]) -> Option<Form> {
    match step {
        b"lists" => Some(Form::List),
        b"pairs-left" => Some(Form::PairLeft),
        b"arrows-left" => Some(Form::ArrowLeft),
        b"arrows-right" => Some(Form::ArrowRight),
        b"doubled" => Some(Form::Doubled),
        b"instances" => Some(Form::Instances),
        _ => None,
    }
}

/// The list type of a type.
fn list_of(alloc: Global, table: &mut TypeTable, item: TyId) -> Result<TyId, NoMemory>
    requires { Has table.old item }
    ensures has { IfOk result (Has table.new) }
    ensures stay { OnOk result ((a : TyId) → Has table.old a → Has table.new a) }
{
    let Some(name) = name_of(b"list") else {
        return Err(NoMemory);
    };
    let mut args = List::new(alloc);
    args.add(item)?;
    if args.len() != name.arity as usize {
        return Err(NoMemory);
    }
    table.con(&name, &args)
}

/// The type of pairs of two types.
fn pair_of(alloc: Global, table: &mut TypeTable, left: TyId, right: TyId) -> Result<TyId, NoMemory>
    requires left { Has table.old left }
    requires right { Has table.old right }
    ensures has { IfOk result (Has table.new) }
    ensures stay { OnOk result ((a : TyId) → Has table.old a → Has table.new a) }
{
    let mut labels = List::new(alloc);
    labels.add(Text::from_bytes(alloc, b"1")?)?;
    labels.add(Text::from_bytes(alloc, b"2")?)?;
    if !all_differ(labels.as_slice()) {
        return Err(NoMemory);
    }
    let mut parts = List::new(alloc);
    parts.add(left)?;
    parts.add(right)?;
    if parts.len() != labels.len() {
        return Err(NoMemory);
    }
    table.record_type(&labels, &parts)
}

/// The type of pairs of two instances of a type's scheme.
fn instances_of(alloc: Global, table: &mut TypeTable, ty: TyId) -> Result<TyId, NoMemory>
    requires { Has table.old ty }
    ensures has { IfOk result (Has table.new) }
    ensures stay { OnOk result ((a : TyId) → Has table.old a → Has table.new a) }
{
    let nothing = List::new(alloc);
    let scheme = table.generalise(ty, &nothing)?;
    let left = table.instantiate(&scheme)?;
    let right = table.instantiate(&scheme)?;
    pair_of(alloc, table, left, right)
}

/// So many instances of a scheme that is entered into the table first, of which the last is answered.
fn entered_instances(
    table: &mut TypeTable,
    scheme: &Scheme,
    count: u32,
) -> Result<Option<TyId>, NoMemory> {
    let entered = table.enter(scheme)?;
    let mut last = None;
    for _ in 0..count {
        last = Some(table.instance(scheme, &entered)?);
    }
    Ok(last)
}

/// One more of this form around a type.
fn one_more(
    alloc: Global,
    table: &mut TypeTable,
    form: Form,
    inner: TyId,
    other: TyId,
) -> Result<TyId, NoMemory>
    requires inner { Has table.old inner }
    requires other { Has table.old other }
    ensures has { IfOk result (Has table.new) }
    ensures stay { OnOk result ((a : TyId) → Has table.old a → Has table.new a) }
{
    match form {
        Form::List => list_of(alloc, table, inner),
        Form::PairLeft => pair_of(alloc, table, inner, other),
        Form::ArrowLeft => table.arrow(inner, other),
        Form::ArrowRight => table.arrow(other, inner),
        Form::Doubled => pair_of(alloc, table, inner, inner),
        Form::Instances => instances_of(alloc, table, inner),
    }
}

/// So many of a form around a type.
fn nested(
    alloc: Global,
    table: &mut TypeTable,
    form: Form,
    inner: TyId,
    count: u32,
) -> Result<TyId, NoMemory>
    requires { Has table.old inner }
    ensures { IfOk result (Has table.new) }
{
    let mut at = inner;
    for _ in 0..count {
        at = one_more(alloc, table, form, at, inner)?;
    }
    Ok(at)
}

/// A label of a number.
fn label_of(alloc: Global, number: u32) -> Result<Text, NoMemory> {
    let mut out = Vec::new(alloc);
    push_parts(
        alloc,
        &mut out,
        &[Part::Text(b"l"), Part::Number(u64::from(number))],
    )?;
    Ok(Text::from_vec(out))
}

/// So many labels.
fn labels_of(alloc: Global, count: u32) -> Result<List<Text>, NoMemory> {
    let mut labels = List::new(alloc);
    for number in 0..count {
        labels.add(label_of(alloc, number)?)?;
    }
    Ok(labels)
}

/// So many new variables.
fn variables(alloc: Global, table: &mut TypeTable, count: u32) -> Result<List<TyId>, NoMemory>
    ensures { IfOk result (HaveAll table.new) }
{
    let mut ids = List::new(alloc);
    for _ in 0..count {
        let id = table.fresh(false)?;
        ids.add(id)?;
    }
    Ok(ids)
}

/// A record of so many new variables.
fn wide(alloc: Global, table: &mut TypeTable, count: u32) -> Result<Option<TyId>, NoMemory> {
    let labels = labels_of(alloc, count)?;
    let parts = variables(alloc, table, count)?;
    if parts.len() != labels.len() || !all_differ(labels.as_slice()) {
        return Ok(None);
    }
    Ok(Some(table.record_type(&labels, &parts)?))
}

/// Makes two types one so many times, and answers what the last time says.
fn unify_times(
    table: &mut TypeTable,
    left: TyId,
    right: TyId,
    count: u32,
) -> Result<&'static [u8], NoMemory>
    requires left { Has table.old left }
    requires right { Has table.old right }
{
    let mut answer: &'static [u8] = b"none";
    for _ in 0..count {
        answer = said(table.unify(left, right))?;
    }
    Ok(answer)
}

/// Puts a type in for a new variable and asks for its size, so many times, and answers the last size.
fn sizes(table: &mut TypeTable, ty: TyId, count: u32) -> Result<Option<u32>, NoMemory> {
    let mut size = None;
    for _ in 0..count {
        let variable = table.fresh(false)?;
        if !table.has(variable) || !table.has(ty) {
            return Ok(None);
        }
        said(table.unify(variable, ty))?;
        if !table.has(ty) {
            return Ok(None);
        }
        size = Some(table.sized(ty)?);
    }
    Ok(size)
}

impl TableScene {
    /// A deep type.
    fn deep(&mut self, form: Form, ty: &Text, count: u32) -> Result<Option<Vec<u8>>, NoMemory> {
        let Some(ty) = id_of(&self.table, &self.ids, ty) else {
            return Ok(None);
        };
        let id = nested(self.alloc, &mut self.table, form, ty, count)?;
        self.keep(id)
    }

    /// A wide record.
    fn wide(&mut self, count: u32) -> Result<Option<Vec<u8>>, NoMemory> {
        match wide(self.alloc, &mut self.table, count)? {
            Some(id) => self.keep(id),
            None => Ok(None),
        }
    }

    /// Many unifications of two types.
    fn often(
        &mut self,
        left: &Text,
        right: &Text,
        count: u32,
    ) -> Result<Option<Vec<u8>>, NoMemory> {
        let Some(left) = id_of(&self.table, &self.ids, left) else {
            return Ok(None);
        };
        let Some(right) = id_of(&self.table, &self.ids, right) else {
            return Ok(None);
        };
        let said = unify_times(&mut self.table, left, right, count)?;
        bytes_line(self.alloc, said)
    }

    /// The size of a type that is asked for many times.
    fn sizes(&mut self, ty: &Text, count: u32) -> Result<Option<Vec<u8>>, NoMemory> {
        let Some(ty) = id_of(&self.table, &self.ids, ty) else {
            return Ok(None);
        };
        match sizes(&mut self.table, ty, count)? {
            Some(size) => number_line(self.alloc, u64::from(size)),
            None => Ok(None),
        }
    }

    /// Instances of a scheme that the table has.
    fn entered(&mut self, number: &Text, count: u32) -> Result<Option<Vec<u8>>, NoMemory> {
        let Some(number) = number_of(number.as_bytes()) else {
            return Ok(None);
        };
        let Some(scheme) = self.schemes.get(number as usize) else {
            return Ok(None);
        };
        match entered_instances(&mut self.table, scheme, count)? {
            Some(id) => self.keep(id),
            None => Ok(None),
        }
    }

    /// What is answered to a step of this kind.
    pub fn growing_step(
        &mut self,
        step: &[u8],
        words: &[Text],
    ) -> Result<Option<Vec<u8>>, NoMemory> {
        let Some((count, words)) = words.split_last() else {
            return Ok(None);
        };
        let Some(count) = number_of(count.as_bytes()) else {
            return Ok(None);
        };
        match (step, words) {
            (b"wide", []) => self.wide(count),
            (b"unify-times", [left, right]) => self.often(left, right, count),
            (b"sizes", [ty]) => self.sizes(ty, count),
            (b"entered", [scheme]) => self.entered(scheme, count),
            (b"declare-times", [first, second]) => self.declare_times(first, second, count),
            (form, [ty]) => match form_of(form) {
                Some(form) => self.deep(form, ty, count),
                None => Ok(None),
            },
            _ => Ok(None),
        }
    }
}
