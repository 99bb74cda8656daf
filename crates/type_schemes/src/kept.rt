//! Variables that stay free where a type is closed.

ghost use Rattle.std.specs.Prelude.{◌≡◌, ℕ, false};
ghost use Rattle.type_schemes.specs.Numbering.{keeps, keeps_id};
ghost use Rattle.type_schemes.specs.Schemes.{MayBeFirstOf};

use crate::places::Places;
use cm_base::List;
use semantic_objects::TyId;
use std::alloc::Global;

/// The variables below `older`, and some others.
#[derive(Drop)]
pub(crate) struct Kept {
    pub(crate) older: usize,
    pub(crate) variables: Places,
}

impl Kept {
    /// No variable.
    pub(crate) fn nothing(alloc: Global) -> Kept
        ensures { (v : ℕ) → keeps result v ≡ false }
    {
        Kept {
            older: 0,
            variables: Places::new(alloc),
        }
    }

    /// Whether a variable is one of them.
    pub(crate) fn has(&self, variable: usize) -> bool
        ensures { result ≡ keeps self.now variable }
    {
        variable < self.older || self.variables.of(variable).is_some()
    }

    /// Whether an id is such a variable.
    fn has_id(&self, id: TyId) -> bool
        ensures { result ≡ keeps_id self.now id }
    {
        match id {
            TyId::Variable(variable) => self.has(variable),
            TyId::Made(_) => false,
        }
    }

    /// The place of the first of some ids that is such a variable.
    pub(crate) fn first_of(&self, ids: &List<TyId>) -> Option<usize>
        ensures { MayBeFirstOf (keeps_id self.now) ids.now result }
    {
        let items = ids.as_slice();
        for at in 0..items.len() {
            if self.has_id(items[at]) {
                return Some(at);
            }
        }
        None
    }
}
