//! The plan of a build.

use cm_base::{List, Skeleton};
use cm_description::{Export, Wanted};
use dependency_graph::UnitOrder;

/// What a build goes by: the skeletons and the imports of all units, by number; the exports of the groups, in the order
/// in which their loading ended; and the units in order.
#[derive(Debug, Drop)]
pub struct Plan {
    pub skeletons: List<Skeleton>,
    pub exports: List<List<Export>>,
    pub wanted: List<List<Wanted>>,
    pub order: UnitOrder,
}
