//! Written type variables in scope.

ghost use Rattle.std.specs.Prelude.{◌≡◌, ◌≤◌, ◌++◌, length, take, reverse, OnOk, OnErr};
ghost use Rattle.sml_modules.specs.Graphs.{Graph};
ghost use Rattle.core_scopes.specs.Scopes.{seen, written_of, written_rows, first_entry};
ghost use Rattle.core_scopes.specs.Marks.{AddsBare, Becomes};
ghost use Rattle.core_scopes.specs.Listed.{more_written};

use crate::scope::Scope;
use cm_base::{List, NoMemory, Text};
use name_trails::NameTrail;
use semantic_objects::TyId;

/// A written type variable that is bound, and what stands for it in the table of types.
#[derive(Debug, Drop)]
pub struct InScope {
    pub name: Text,
    pub is: TyId,
}

/// Binds variables, the last of them first. After want of memory some of them may be bound.
fn bind_all(trail: &mut NameTrail<TyId>, rows: &List<InScope>) -> Result<(), NoMemory>
    ensures ok { OnOk result (trail.new ≡ trail.old ++ reverse (written_rows rows.now)) }
    ensures kept { take (length trail.old) trail.new ≡ trail.old }
{
    for row in rows.as_slice().iter().rev() {
        trail.bind(row.name.copy()?, row.is)?;
    }
    Ok(())
}

impl<V: Copy + Drop> Scope<V> {
    /// Puts written type variables behind all others. Want of memory leaves the scope as it was.
    fn add_written(&mut self, rows: &List<InScope>) -> Result<(), NoMemory>
        ensures ok { OnOk result (self.new ≡ more_written rows.now self.old) }
        ensures kept { self.old.hidden ≤ length self.old.written }
        ensures err { OnErr result (self.new ≡ self.old) }
    {
        let before = self.written.len();
        match bind_all(&mut self.written, rows) {
            Ok(()) => Ok(()),
            Err(NoMemory) => {
                self.written.truncate(before);
                Err(NoMemory)
            }
        }
    }

    /// Binds written type variables: they stand before those that were in scope. Want of memory leaves the scope as it
    /// was.
    pub fn bind_written(&mut self, rows: &List<InScope>) -> Result<(), NoMemory>
        ensures ok { OnOk result ((g : Graph) → Becomes g self.old self.new
            (λ read. seen g read self.old) (written_rows rows.now ++ written_of self.old)) }
        ensures bare { OnOk result (AddsBare self.old self.new) }
        ensures err { OnErr result (self.new ≡ self.old) }
    {
        self.add_written(rows)?;
        Ok(())
    }

    /// Binds written type variables, and no others are in scope then. Want of memory leaves the scope as it was.
    pub fn bind_written_alone(&mut self, rows: &List<InScope>) -> Result<(), NoMemory>
        ensures ok { OnOk result ((g : Graph) → Becomes g self.old self.new
            (λ read. seen g read self.old) (written_rows rows.now)) }
        ensures bare { OnOk result (AddsBare self.old self.new) }
        ensures err { OnErr result (self.new ≡ self.old) }
    {
        let before = self.written.len();
        self.add_written(rows)?;
        self.hidden = before;
        Ok(())
    }

    /// What stands for the written type variable of a name, if one is in scope. It takes no memory.
    pub fn find_written(&self, name: &Text) -> Option<TyId>
        ensures { result ≡ first_entry (written_of self.now) name.now }
    {
        match self.written.find_since(self.hidden, name) {
            Some(is) => Some(*is),
            None => None,
        }
    }
}
