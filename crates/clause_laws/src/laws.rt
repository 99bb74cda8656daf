//! The laws, so that crates above have them from a call.

ghost use Rattle.clause_laws.specs.Promises.{HeadsHaveTheirForms, ClausesAreOfOneFunction};

/// A head that is read has one of the three forms, and is one of those that the clauses before ask for.
pub fn heads_have_their_forms()
    ensures { HeadsHaveTheirForms }
{}

/// All clauses of a function that is read have one name and one number of arguments, and there is one clause at least.
pub fn clauses_are_of_one_function()
    ensures { ClausesAreOfOneFunction }
{}
