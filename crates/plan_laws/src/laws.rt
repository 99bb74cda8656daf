//! The laws of plans, so that they stand on calls.

ghost use Rattle.plan_laws.specs.Laws.{BuildsTakeEachSource, CyclesHaveNoPlan, PlansAreOrders, StoredPlansAreOrders};

/// A plan of a well-formed project of which each unit has a skeleton, and any plan over a folder, has one entry for
/// each unit in its lists, and each unit once in its order, by rank and then by name, behind those that provide its
/// names. Where the names are found there is a plan exactly where no unit lies on a cycle.
pub fn plans_are_orders()
    ensures plans { PlansAreOrders }
    ensures stored { StoredPlansAreOrders }
    ensures cycles { CyclesHaveNoPlan }
{}

/// The units that a build takes of such a plan are the sources of the project: none is left out, each is there once,
/// and no unit that provides a name stands behind one that wants it.
pub fn a_build_takes_each_source()
    ensures { BuildsTakeEachSource }
{}
