//! The laws of orders, so that they stand on calls.

ghost use Rattle.order_laws.specs.Laws.{CycleIsReported, CycleIsTheValue, OrderHasNoCycle, OrderIsTheValue, OrderWithoutCycle, RankIsLongest};

/// Of units of differing names the value `ordered` is the order exactly where there is one, which is where they have no
/// cycle, and else the nearest cycle.
pub fn the_value_is_the_relation()
    ensures order { OrderIsTheValue }
    ensures cycle { CycleIsTheValue }
    ensures without { OrderWithoutCycle }
    ensures reported { CycleIsReported }
{}

/// Where there is no cycle, the rank of a unit is the length of the longest chain of providers below it; and a list of
/// all units by their ranks and names shows that there is none.
pub fn ranks_are_longest_chains()
    ensures ranks { RankIsLongest }
    ensures order { OrderHasNoCycle }
{}
