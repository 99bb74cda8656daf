//! The laws, so that crates above have them from a call.

ghost use Rattle.table_laws.specs.Promises.{KeepsTables, UnitsKeepTables};

/// Where the tables in scope rise in byte order, so do those of what a declaration makes.
#[tactic(auto, using(crate::proofs::Declarations::keeps_tables))]
pub fn inference_keeps_tables()
    ensures { KeepsTables }
{}

/// Where the tables of what it is given rise in byte order, so do those of what a unit defines.
#[tactic(auto, using(crate::proofs::Units::units_keep_tables))]
pub fn units_keep_tables()
    ensures { UnitsKeepTables }
{}
