//! What holds of providers and of chosen items, whoever finds them.

ghost use Rattle.visibility.specs.Laws.{ChosenAreSelected, DefinersAreFound, ExportsAreFound, FoundProvides, ImportsAreProvided, OthersAreFound, ProviderIsFound};

/// What is found in the lists of a project is what the relations say of its groups: the sources that define a name, the
/// other sources that do, the units under which members export it, and the one unit that provides it.
pub fn providers_are_found()
    ensures definers { DefinersAreFound }
    ensures others { OthersAreFound }
    ensures exports { ExportsAreFound }
    ensures found { FoundProvides }
    ensures provider { ProviderIsFound }
{}

/// Each import of a unit has the unit that provides its name.
pub fn imports_are_provided()
    ensures { ImportsAreProvided }
{}

/// The items that lines choose are those that `select` answers, whatever way the lines nest.
#[tactic(auto, using(crate::proofs::ChosenItems::chosen_selected))]
pub fn chosen_items_are_selected()
    ensures { ChosenAreSelected }
{}
