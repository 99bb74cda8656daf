//! Steps that bind names, and leave scopes.

use crate::entries::numbered_str;
use crate::scene::{ScopeScene, env_of, mark_of, number_line, ok_line};
use case_files::number_of;
use cm_base::{List, NoMemory, Text};
use core_scopes::{InScope, ValueInScope};
use semantic_objects::TyId;
use std::alloc::Global;

/// Written type variables, each with the number of the variable that it stands for.
fn read_written(alloc: Global, words: &[Text]) -> Result<Option<List<InScope>>, NoMemory> {
    let mut rows = List::new(alloc);
    for at in 0..words.len() / 2 {
        let Some(number) = number_of(words[2 * at + 1].as_bytes()) else {
            return Ok(None);
        };
        rows.add(InScope {
            name: words[2 * at].copy()?,
            is: TyId::Variable(number as usize),
        })?;
    }
    Ok(Some(rows))
}

impl ScopeScene {
    /// Binds a value.
    fn bind_value(&mut self, name: &Text, number: &Text) -> Result<Option<Vec<u8>>, NoMemory> {
        let Some(number) = number_of(number.as_bytes()) else {
            return Ok(None);
        };
        self.scope
            .bind_value(name.copy()?, ValueInScope::Own(number))?;
        ok_line(self.alloc)
    }

    /// Binds a type.
    fn bind_type(&mut self, name: &Text, number: &Text) -> Result<Option<Vec<u8>>, NoMemory> {
        let Some(number) = number_of(number.as_bytes()) else {
            return Ok(None);
        };
        let entry = numbered_str(self.alloc, number)?;
        self.scope.bind_type(name.copy()?, entry)?;
        ok_line(self.alloc)
    }

    /// Binds a structure.
    fn bind_structure(&mut self, name: &Text, env: &Text) -> Result<Option<Vec<u8>>, NoMemory> {
        let Some(env) = env_of(&self.graph, &self.envs, env) else {
            return Ok(None);
        };
        self.scope.bind_structure(name.copy()?, env)?;
        ok_line(self.alloc)
    }

    /// Opens an environment.
    fn open(&mut self, env: &Text) -> Result<Option<Vec<u8>>, NoMemory> {
        let Some(env) = env_of(&self.graph, &self.envs, env) else {
            return Ok(None);
        };
        self.scope.open_env(&self.graph, env)?;
        ok_line(self.alloc)
    }

    /// Binds written type variables.
    fn bind_written(&mut self, words: &[Text]) -> Result<Option<Vec<u8>>, NoMemory> {
        let Some(rows) = read_written(self.alloc, words)? else {
            return Ok(None);
        };
        self.scope.bind_written(&rows)?;
        ok_line(self.alloc)
    }

    /// Binds written type variables, and no others are in scope then.
    fn bind_written_alone(&mut self, words: &[Text]) -> Result<Option<Vec<u8>>, NoMemory> {
        let Some(rows) = read_written(self.alloc, words)? else {
            return Ok(None);
        };
        self.scope.bind_written_alone(&rows)?;
        ok_line(self.alloc)
    }

    /// Remembers the scope.
    fn mark(&mut self) -> Result<Option<Vec<u8>>, NoMemory> {
        let number = self.marks.len() as u64;
        self.marks.add(self.scope.mark())?;
        number_line(self.alloc, number)
    }

    /// Leaves the scope.
    fn leave(&mut self, mark: &Text) -> Result<Option<Vec<u8>>, NoMemory> {
        let Some(mark) = mark_of(&self.marks, mark) else {
            return Ok(None);
        };
        self.scope.leave(mark);
        ok_line(self.alloc)
    }

    /// What is answered to a step of this kind.
    pub fn binding_step(
        &mut self,
        step: &[u8],
        words: &[Text],
    ) -> Result<Option<Vec<u8>>, NoMemory> {
        match (step, words) {
            (b"value", [name, number]) => self.bind_value(name, number),
            (b"type", [name, number]) => self.bind_type(name, number),
            (b"structure", [name, env]) => self.bind_structure(name, env),
            (b"open", [env]) => self.open(env),
            (b"written", _) => self.bind_written(words),
            (b"written-alone", _) => self.bind_written_alone(words),
            (b"mark", []) => self.mark(),
            (b"leave", [mark]) => self.leave(mark),
            _ => Ok(None),
        }
    }
}
