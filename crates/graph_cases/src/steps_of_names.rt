//! Steps of units and type names.

use crate::scene::{GraphScene, number_line};
use case_files::{Part, number_of, push_parts};
use case_texts::line;
use cm_base::{NoMemory, Text};
use semantic_objects::{Owner, TyName};

impl GraphScene {
    /// The line of a type name.
    fn name_line(&self, name: &TyName) -> Result<Vec<u8>, NoMemory> {
        let owner: &[u8] = match &name.owner {
            Owner::Basis => b"basis",
            Owner::Unit(unit) => unit.as_bytes(),
            Owner::Bound => b"bound",
        };
        let eq: &[u8] = if name.eq { b" eq\n" } else { b" no eq\n" };
        let mut out = Vec::new(self.alloc);
        let parts = [
            Part::Text(b"<"),
            Part::Text(owner),
            Part::Text(b"> "),
            Part::Number(name.number),
            Part::Text(b" of "),
            Part::Number(u64::from(name.arity)),
            Part::Text(eq),
        ];
        push_parts(self.alloc, &mut out, &parts)?;
        Ok(out)
    }

    /// The unit that owns new names.
    fn home_line(&self) -> Result<Vec<u8>, NoMemory> {
        let home = self.graph.home()?;
        let mut out = Vec::new(self.alloc);
        let parts = [
            Part::Text(b"<"),
            Part::Text(home.as_bytes()),
            Part::Text(b">\n"),
        ];
        push_parts(self.alloc, &mut out, &parts)?;
        Ok(out)
    }

    /// A new type name.
    fn new_name(&mut self, arity: &Text, eq: bool) -> Result<Option<Vec<u8>>, NoMemory> {
        match number_of(arity.as_bytes()) {
            Some(arity) => {
                let name = self.graph.new_name(arity, eq)?;
                Ok(Some(self.name_line(&name)?))
            }
            None => Ok(None),
        }
    }

    /// What is answered to a step of this kind.
    pub fn names_step(&mut self, step: &[u8], words: &[Text]) -> Result<Option<Vec<u8>>, NoMemory> {
        match (step, words) {
            (b"enter", [home]) => {
                self.graph.enter(home)?;
                Ok(Some(line(self.alloc, b"ok")?))
            }
            (b"home", []) => Ok(Some(self.home_line()?)),
            (b"made", []) => number_line(self.alloc, self.graph.made()),
            (b"new-name", [arity]) => self.new_name(arity, false),
            (b"new-eq-name", [arity]) => self.new_name(arity, true),
            _ => Ok(None),
        }
    }
}
