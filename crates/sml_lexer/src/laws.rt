//! The laws of lexing, as calls that do nothing.

ghost use Rattle.sml_lexer.specs.Cuttings.{IsCutInOneWay, PiecesGiveBack, PiecesSpell, LexemesAreCut, CutTextIsLexed};

/// A text is cut into lexemes, separators and comments in one way at most.
#[tactic(auto, using(crate::proofs::CuttingsLemmas::one_way))]
pub fn a_text_is_cut_in_one_way()
    ensures { IsCutInOneWay }
{}

/// The lexemes of a text, with the separators and comments between them, give back the text.
#[tactic(auto, using(crate::proofs::CuttingsLemmas::give_back))]
pub fn pieces_give_back_the_text()
    ensures { PiecesGiveBack }
{}

/// The piece of a word is the word, and that of a long identifier its parts with a dot between each two.
#[tactic(auto, using(crate::proofs::SpelledLemmas::spelled))]
pub fn pieces_spell_their_words()
    ensures { PiecesSpell }
{}

/// The lexemes of a source are those of its cutting, and a source of the greatest size or less that has one is lexed.
#[tactic(auto, using(crate::proofs::CuttingsLemmas::lexed, crate::proofs::CuttingsLemmas::cut))]
pub fn lexemes_are_those_of_the_cutting()
    ensures cut { LexemesAreCut }
    ensures lexed { CutTextIsLexed }
{}
