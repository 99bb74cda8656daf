//! The laws of commands with tools, one by one and in lists, as calls that do nothing.

ghost use Rattle.history_laws.specs.Laws.{CommandsKeepGood, CommandsKnowNoStore, EveryHistory, EveryListOfCalls, ProjectsStandAlone};

/// A command means, whatever the store holds, what it means where the same project stands alone, as it does in the part of
/// the folder outside the store: the same status and diagnostic, the same binfile and interface file of each unit that is
/// done, the same linked program, and the same uses of tools. What is stale in the store says which units the compiler is
/// asked for, and the records which uses run.
pub fn a_command_knows_no_store()
    ensures same { CommandsKnowNoStore }
    ensures alone { ProjectsStandAlone }
{}

/// The files that a command means are a good store where those at entry are one: the next command starts well.
pub fn a_command_keeps_the_store_good()
    ensures { CommandsKeepGood }
{}

/// For every list of changes of the project and commands, each with tools of some classes and rules, from a folder without
/// a store, where no two differing interfaces share a hash: each command means what it means from nothing, and the store
/// that it finds is good.
pub fn every_history()
    ensures { EveryHistory }
{}

/// For every list of changes of the project and calls of `run_cm`, each with the box of tools that it finds, from a folder
/// without a store, where no two differing interfaces share a hash, whatever the calls answered: each call that met no
/// fault does what its words mean from nothing; it asks the compiler for what is stale, and runs the tools whose records
/// differ; and the store that it finds is good, after faults too.
pub fn every_list_of_calls()
    ensures { EveryListOfCalls }
{}
