//! Steps that look names up.

use crate::scene::{ScopeScene, number_line};
use case_files::{Part, push_parts};
use case_texts::line;
use cm_base::{List, NoMemory, Text};
use core_scopes::ValueInScope;
use semantic_objects::{TyId, TypeStr};
use std::alloc::Global;
use type_printing::{push_scheme, push_type};

/// The parts of a long name, between its dots.
fn parts_of(alloc: Global, name: &Text) -> Result<List<Text>, NoMemory> {
    let mut parts = List::new(alloc);
    for part in name.as_bytes().split(|byte| *byte == b'.') {
        parts.add(Text::from_bytes(alloc, part)?)?;
    }
    Ok(parts)
}

/// The line of what isn't there.
fn none_line(alloc: Global) -> Result<Option<Vec<u8>>, NoMemory> {
    Ok(Some(line(alloc, b"none")?))
}

/// The line of a value.
fn value_line(alloc: Global, value: &ValueInScope<u32>) -> Result<Option<Vec<u8>>, NoMemory> {
    match value {
        ValueInScope::Own(number) => number_line(alloc, u64::from(*number)),
        ValueInScope::Entry(entry) => {
            let mut out = Vec::new(alloc);
            push_scheme(alloc, &mut out, &entry.scheme)?;
            push_parts(alloc, &mut out, &[Part::Text(b"\n")])?;
            Ok(Some(out))
        }
    }
}

/// The line of a type structure.
fn type_line(alloc: Global, entry: &TypeStr) -> Result<Option<Vec<u8>>, NoMemory> {
    let mut out = Vec::new(alloc);
    push_type(alloc, &mut out, &entry.function.body)?;
    push_parts(alloc, &mut out, &[Part::Text(b"\n")])?;
    Ok(Some(out))
}

impl ScopeScene {
    /// What a long name stands for among the values.
    fn find_value(&self, parts: &[Text]) -> Result<Option<Vec<u8>>, NoMemory> {
        if !self.scope.is_of(&self.graph) {
            return Ok(None);
        }
        match self.scope.find_long_value(&self.graph, parts)? {
            Some(value) => value_line(self.alloc, &value),
            None => none_line(self.alloc),
        }
    }

    /// What a long name stands for among the types.
    fn find_type(&self, parts: &[Text]) -> Result<Option<Vec<u8>>, NoMemory> {
        if !self.scope.is_of(&self.graph) {
            return Ok(None);
        }
        match self.scope.find_long_type(&self.graph, parts)? {
            Some(entry) => type_line(self.alloc, &entry),
            None => none_line(self.alloc),
        }
    }

    /// What a long name stands for among the structures, by its number.
    fn find_structure(&self, parts: &[Text]) -> Result<Option<Vec<u8>>, NoMemory> {
        if !self.scope.is_of(&self.graph) {
            return Ok(None);
        }
        match self.scope.find_long_structure(&self.graph, parts)? {
            Some(env) => match self.envs.as_slice().iter().position(|known| *known == env) {
                Some(number) => number_line(self.alloc, number as u64),
                None => Ok(None),
            },
            None => none_line(self.alloc),
        }
    }

    /// What a written type variable stands for.
    fn find_written(&self, name: &Text) -> Result<Option<Vec<u8>>, NoMemory> {
        match self.scope.find_written(name) {
            Some(TyId::Variable(number)) => number_line(self.alloc, number as u64),
            Some(TyId::Made(_)) => Ok(None),
            None => none_line(self.alloc),
        }
    }

    /// What is answered to a step of this kind.
    pub fn finding_step(&self, step: &[u8], words: &[Text]) -> Result<Option<Vec<u8>>, NoMemory> {
        let [name] = words else {
            return Ok(None);
        };
        let parts = parts_of(self.alloc, name)?;
        match step {
            b"find-value" => self.find_value(parts.as_slice()),
            b"find-type" => self.find_type(parts.as_slice()),
            b"find-structure" => self.find_structure(parts.as_slice()),
            b"find-written" => self.find_written(name),
            _ => Ok(None),
        }
    }
}
