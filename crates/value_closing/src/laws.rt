//! The law of tables and scopes, so that crates above have it from a call.

ghost use Rattle.value_closing.specs.Promises.{StaysOfTable};

/// What is in scope stays of what a table knows while the table grows, so that a `val` may be closed by age.
pub fn tables_hold_their_scopes()
    ensures { StaysOfTable }
{}
