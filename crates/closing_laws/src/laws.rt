//! The laws, so that crates above have them from a call.

ghost use Rattle.closing_laws.specs.Promises.{StaysOfState, BindsNamesOnce, EndsByVariables, ValuesGoBySteps};
ghost use Rattle.closing_laws.specs.Promises.{BindingsGoOneByOne};

/// Everything that is in scope stays of the state, so that each `val` may be closed by age.
#[tactic(auto, using(crate::proofs::Promised::stays_of_state))]
pub fn states_hold_their_scopes()
    ensures { StaysOfState }
{}

/// The variables of a `val` have names that differ.
#[tactic(auto, using(crate::proofs::Promised::binds_names_once))]
pub fn variables_have_names_of_their_own()
    ensures { BindsNamesOnce }
{}

/// A `val` ends variable by variable.
#[tactic(auto, using(crate::proofs::Promised::ends_by_variables))]
pub fn values_end_by_variables()
    ensures { EndsByVariables }
{}

/// A `val` goes by its steps, and its end may be closed by age.
#[tactic(auto, using(crate::proofs::ValSteps::values_go_by_steps))]
pub fn values_go_by_steps()
    ensures { ValuesGoBySteps }
{}

/// The bindings of a `val` go one by one.
#[tactic(auto, using(crate::proofs::ValSteps::bindings_go_one_by_one))]
pub fn bindings_go_one_by_one()
    ensures { BindingsGoOneByOne }
{}
