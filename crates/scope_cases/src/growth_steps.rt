//! Steps with many bindings, whose time shows how the calls grow.

use crate::scene::{ScopeScene, ok_line};
use case_files::number_of;
use cm_base::{NoMemory, Text};
use core_scopes::{ScopeMark, ValueInScope};

impl ScopeScene {
    /// Binds the values `x0`, `x1` and so on, each by its number.
    fn bind_many(&mut self, count: u32) -> Result<(), NoMemory> {
        for number in 0..count {
            let name = format!(in self.alloc; "x{number}")?;
            let name = Text::from_bytes(self.alloc, name.as_bytes())?;
            self.scope.bind_value(name, ValueInScope::Own(number))?;
        }
        Ok(())
    }

    /// Enters and leaves so many scopes, one after the other, each of one binding.
    fn scope_after_scope(&mut self, count: u32) -> Result<(), NoMemory> {
        for _ in 0..count {
            let mark = self.scope.mark();
            self.bind_many(1)?;
            self.scope.leave(mark);
        }
        Ok(())
    }

    /// Enters so many scopes, each in the one before it.
    fn enter_all(&mut self, depth: u32, count: u32) -> Result<Vec<ScopeMark>, NoMemory> {
        let mut marks = Vec::new(self.alloc);
        for _ in 0..depth {
            marks.push(self.scope.mark())?;
            self.bind_many(count)?;
        }
        Ok(marks)
    }

    /// Enters so many scopes in each other, each of so many bindings, and leaves them one by one.
    fn scope_in_scope(&mut self, depth: u32, count: u32) -> Result<(), NoMemory> {
        let mut marks = self.enter_all(depth, count)?;
        for _ in 0..marks.len() {
            if let Some(mark) = marks.pop() {
                self.scope.leave(mark);
            }
        }
        Ok(())
    }

    /// What is answered to a step of this kind.
    pub fn growth_step(
        &mut self,
        step: &[u8],
        words: &[Text],
    ) -> Result<Option<Vec<u8>>, NoMemory> {
        match (step, words) {
            (b"many", [count]) => match number_of(count.as_bytes()) {
                Some(count) => self.bind_many(count)?,
                None => return Ok(None),
            },
            (b"scopes", [count]) => match number_of(count.as_bytes()) {
                Some(count) => self.scope_after_scope(count)?,
                None => return Ok(None),
            },
            (b"nested", [depth, count]) => {
                match (number_of(depth.as_bytes()), number_of(count.as_bytes())) {
                    (Some(depth), Some(count)) => self.scope_in_scope(depth, count)?,
                    _ => return Ok(None),
                }
            }
            _ => return Ok(None),
        }
        ok_line(self.alloc)
    }
}
