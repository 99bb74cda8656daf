//! The variables that a type is closed over, with their numbers.

ghost use Rattle.std.specs.Prelude.{◌≡◌, ◌∷◌, [], map, false, IfOk, OnOk};
ghost use Rattle.unification.specs.Closing.{noticed};
ghost use Rattle.type_nodes.specs.Tables.{state};
ghost use Rattle.type_schemes.specs.Schemes.{HaveAll, all_variables};
ghost use Rattle.type_schemes.specs.Reaching.{variables_of, noticed_all};
ghost use Rattle.type_schemes.specs.Numbering.{number_of, keeps, AreNumbers, HasAllVariables};

use crate::kept::Kept;
use crate::places::Places;
use crate::reach::{Reached, reach};
use cm_base::{List, NoMemory};
use semantic_objects::TyId;
use std::alloc::Global;
use type_nodes::TypeBindings;

/// Variables in the order of their numbers.
#[derive(Drop)]
pub(crate) struct Numbers {
    pub(crate) variables: List<usize>,
    numbers: Places,
}

impl Numbers {
    /// No variable.
    fn new(alloc: Global) -> Numbers
        ensures numbers { AreNumbers result }
        ensures none { result.variables ≡ [] }
    {
        Numbers {
            variables: List::new(alloc),
            numbers: Places::new(alloc),
        }
    }

    /// The number of a variable.
    pub(crate) fn of(&self, variable: usize) -> Option<usize>
        requires { AreNumbers self.now }
        ensures { result ≡ number_of variable self.now.variables }
    {
        self.numbers.of(variable)
    }

    /// Gives a variable the next number, if it has none.
    fn notice(&mut self, variable: usize) -> Result<(), NoMemory>
        requires { AreNumbers self.old }
        ensures numbers { OnOk result (AreNumbers self.new) }
        ensures variables { OnOk result (self.new.variables ≡ noticed false variable self.old.variables) }
    {
        match self.of(variable) {
            Some(_) => Ok(()),
            None => {
                let number = self.variables.len();
                self.variables.add(variable)?;
                Ok(self.numbers.set(variable, number)?)
            }
        }
    }

    /// Gives a variable a number, unless it stays free.
    fn meet(&mut self, id: TyId, kept: &Kept) -> Result<(), NoMemory>
        requires { AreNumbers self.old }
        ensures numbers { OnOk result (AreNumbers self.new) }
        ensures variables { OnOk result (
            self.new.variables ≡ noticed_all (keeps kept.now) (variables_of (id ∷ [])) self.old.variables
            ) }
    {
        match id {
            TyId::Variable(number) => {
                if kept.has(number) {
                    Ok(())
                } else {
                    Ok(self.notice(number)?)
                }
            }
            TyId::Made(_) => Ok(()),
        }
    }

    /// The mark of each variable, as it is now.
    pub(crate) fn marks(&self, table: &TypeBindings, alloc: Global) -> Result<List<bool>, NoMemory>
        requires { HasAllVariables table.now self.now.variables }
        ensures { IfOk result (λ marks. marks ≡ map (state table.now).marks self.now.variables) }
    {
        let mut marks = List::new(alloc);
        for variable in self.variables.as_slice() {
            marks.add(table.is_marked(*variable))?;
        }
        Ok(marks)
    }
}

/// Numbers the variables that were reached, but none that stays free.
pub(crate) fn number(alloc: Global, reached: &Reached, kept: &Kept) -> Result<Numbers, NoMemory>
    ensures numbers { IfOk result AreNumbers }
    ensures variables { IfOk result (λ numbers.
        numbers.variables ≡ noticed_all (keeps kept.now) (variables_of reached.now.ids) []) }
{
    let mut numbers = Numbers::new(alloc);
    for id in reached.ids.as_slice() {
        numbers.meet(*id, kept)?;
    }
    Ok(numbers)
}

/// The variables that stand in what some ids stand for, by first occurrence.
pub fn variables_in(
    table: &TypeBindings,
    alloc: Global,
    ids: &[TyId],
) -> Result<List<usize>, NoMemory>
    requires { HaveAll table.now ids.now }
    ensures { IfOk result (λ variables. variables ≡ all_variables table.now ids.now) }
{
    let reached = reach(table, alloc, ids)?;
    let nothing = Kept::nothing(alloc);
    let numbers = number(alloc, &reached, &nothing)?;
    Ok(numbers.variables)
}
