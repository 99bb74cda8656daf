//! Steps that make types and schemes.

use crate::labels::all_differ;
use crate::names::name_of;
use crate::scene::{TableScene, id_of, ids_of};
use case_files::number_of;
use cm_base::{List, NoMemory, Text};

impl TableScene {
    /// A variable: flexible or rigid, an equality variable or not.
    fn variable(&mut self, is_rigid: bool, eq: bool) -> Result<Option<Vec<u8>>, NoMemory> {
        let id = if is_rigid {
            self.table.rigid(eq)?
        } else {
            self.table.fresh(eq)?
        };
        self.keep(id)
    }

    /// A type name of the basis over types.
    fn con(&mut self, name: &Text, args: &[Text]) -> Result<Option<Vec<u8>>, NoMemory> {
        let Some(name) = name_of(name.as_bytes()) else {
            return Ok(None);
        };
        let Some(args) = ids_of(self.alloc, &self.table, &self.ids, args)? else {
            return Ok(None);
        };
        if args.len() != name.arity as usize {
            return Ok(None);
        }
        let id = self.table.con(&name, &args)?;
        self.keep(id)
    }

    /// A function type.
    fn arrow(&mut self, from: &Text, to: &Text) -> Result<Option<Vec<u8>>, NoMemory> {
        let Some(from) = id_of(&self.table, &self.ids, from) else {
            return Ok(None);
        };
        let Some(to) = id_of(&self.table, &self.ids, to) else {
            return Ok(None);
        };
        let id = self.table.arrow(from, to)?;
        self.keep(id)
    }

    /// A record type of these labels and types.
    fn record_of(
        &mut self,
        labels: &List<Text>,
        parts: &[Text],
    ) -> Result<Option<Vec<u8>>, NoMemory> {
        let Some(parts) = ids_of(self.alloc, &self.table, &self.ids, parts)? else {
            return Ok(None);
        };
        if parts.len() != labels.len() || !all_differ(labels.as_slice()) {
            return Ok(None);
        }
        let id = self.table.record_type(labels, &parts)?;
        self.keep(id)
    }

    /// A record type: labels and types by turns.
    fn record(&mut self, words: &[Text]) -> Result<Option<Vec<u8>>, NoMemory> {
        let mut labels = List::new(self.alloc);
        let mut parts = Vec::new(self.alloc);
        for pair in words.chunks(2) {
            if let [label, part] = pair {
                labels.add(label.copy()?)?;
                parts.push(part.copy()?)?;
            }
        }
        self.record_of(&labels, parts.as_slice())
    }

    /// The scheme of a type, closed but for the variables of others.
    fn close(&mut self, ty: &Text, kept: &[Text]) -> Result<Option<Vec<u8>>, NoMemory> {
        let Some(ty) = id_of(&self.table, &self.ids, ty) else {
            return Ok(None);
        };
        let Some(kept) = ids_of(self.alloc, &self.table, &self.ids, kept)? else {
            return Ok(None);
        };
        let scheme = self.table.generalise(ty, &kept)?;
        self.keep_scheme(scheme)
    }

    /// An instance of a scheme.
    fn instance(&mut self, number: &Text) -> Result<Option<Vec<u8>>, NoMemory> {
        let Some(number) = number_of(number.as_bytes()) else {
            return Ok(None);
        };
        let Some(scheme) = self.schemes.get(number as usize) else {
            return Ok(None);
        };
        let id = self.table.instantiate(scheme)?;
        self.keep(id)
    }

    /// What is answered to a step that makes a type or a scheme.
    pub fn making_step(
        &mut self,
        step: &[u8],
        words: &[Text],
    ) -> Result<Option<Vec<u8>>, NoMemory> {
        match (step, words) {
            (b"fresh", []) => self.variable(false, false),
            (b"fresh-eq", []) => self.variable(false, true),
            (b"rigid", []) => self.variable(true, false),
            (b"rigid-eq", []) => self.variable(true, true),
            (b"con", [name, args @ ..]) => self.con(name, args),
            (b"arrow", [from, to]) => self.arrow(from, to),
            (b"record", words) => self.record(words),
            (b"close", [ty, kept @ ..]) => self.close(ty, kept),
            (b"instance", [number]) => self.instance(number),
            _ => Ok(None),
        }
    }
}
