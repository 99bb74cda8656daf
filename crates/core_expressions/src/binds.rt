//! The bindings of a `val`, while they are read.

use cm_base::List;
use phrase_reading::tall::Tall;
use sml_trees::FullValBind;

/// The bindings that were read, and how many `rec` stand before the last of them.
#[derive(Drop)]
pub struct Binds {
    pub found: Tall<List<FullValBind>>,
    pub recs: u32,
}
