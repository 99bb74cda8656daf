//! The law, as a public function.

ghost use Rattle.canonical_interfaces.specs.Fair.{FairTopsAreWritten};

/// The canonical form of a fair top meets the rules of interfaces: its spelling is the interface of the unit.
#[tactic(auto, using(crate::proofs::Written::fair_tops_written))]
pub fn fair_tops_are_written()
    ensures { FairTopsAreWritten }
{}
