//! The laws of the two functions, as calls that do nothing.

ghost use Rattle.description_values.specs.Choice.{ChoosesItems};
ghost use Rattle.description_values.specs.Described.{IsDescribed};

/// What a list of lines chooses is a function of the lines, the definitions and the modules.
#[tactic(auto, using(crate::proofs::Choosing::chooses_items))]
pub fn lines_choose_their_items()
    ensures { ChoosesItems }
{}

/// What a text is read as is a function of its file and the text.
#[tactic(auto, using(crate::proofs::DescribedOnce::described_once))]
pub fn texts_are_described()
    ensures { IsDescribed }
{}
