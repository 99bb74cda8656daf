//! What the groups of a project export and its units import.

use cm_base::List;
use cm_description::{Export, Wanted};

/// The exports of each group, in the order in which the groups ended, and the imports of each unit, by its number.
#[derive(Debug, Drop)]
pub struct Names {
    pub exports: List<List<Export>>,
    pub wanted: List<List<Wanted>>,
}
