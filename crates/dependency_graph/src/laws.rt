//! What holds of orders and cycles as values, whoever finds them.

ghost use Rattle.dependency_graph.specs.OrderLaws.{CycleIsOne, MoreStepsChangeNothing, OrderIsOne};

/// The rank of a unit takes no more steps along edges than there are units, where there is no cycle. There is one order
/// of units of differing names at most, and one cycle at most is reported: those that `ordered` has.
#[tactic(auto, using(crate::proofs::OneAnswer::more_steps, crate::proofs::OneAnswer::one_order, crate::proofs::OneAnswer::one_cycle))]
pub fn orders_and_cycles_are_values()
    ensures ranks { MoreStepsChangeNothing }
    ensures order { OrderIsOne }
    ensures cycle { CycleIsOne }
{}
