//! What holds of descriptions as texts, whoever reads them.

ghost use Rattle.cm_description.specs.Laws.{AreLawful, HasOneAnswer, HasOneDescription};

/// The grammar of descriptions obeys the laws of grammars: each text is a description, or is refused or stopped by a
/// condition at one place.
#[tactic(auto, using(crate::proofs::TextLaws::descriptions_lawful))]
pub fn descriptions_are_lawful()
    ensures { AreLawful }
{}

/// A text is one description at most.
#[tactic(auto, using(crate::proofs::TextLaws::one_description))]
pub fn text_has_one_description()
    ensures { HasOneDescription }
{}

/// A text is refused with one diagnostic at most, and is no description within its limits then.
#[tactic(auto, using(crate::proofs::OneAnswer::one_answer))]
pub fn text_has_one_answer()
    ensures { HasOneAnswer }
{}
