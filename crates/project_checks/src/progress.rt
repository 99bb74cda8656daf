//! What was loaded so far.

use cm_base::List;
use cm_description::{Group, Unit};

/// A group that is a member of another one, by their numbers.
#[derive(Clone, Copy, Debug, PartialEq, Eq)]
pub struct Membership {
    pub group: u32,
    pub member: u32,
}

/// What was loaded so far. The units and the groups stand in the order in which they were met; a group is numbered when
/// its loading begins, and its units, its members and its owner are put into it at the end. `finished` has the numbers
/// of the groups whose loading ended, in that order, and `sum` is the number of bytes of all sources.
#[derive(Debug, Drop)]
pub struct Progress {
    pub units: List<Unit>,
    pub groups: List<Group>,
    pub memberships: List<Membership>,
    pub finished: List<u32>,
    pub sum: u64,
}
