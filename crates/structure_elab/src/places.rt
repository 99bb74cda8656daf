//! Where structure expressions stand.

ghost use Rattle.std.specs.Prelude.{◌≡◌};
ghost use Rattle.bare_phrases.specs.PhraseOf.{str_phrase};
ghost use Rattle.unit_semantics.specs.UnitPhrases.{module_phrase};
ghost use Rattle.unit_semantics.specs.StructureInference.{module_at};

use sml_trees::{At, StrExp};

/// The place of a structure expression, that of its first word.
#[tactic(auto, using(bare_phrases::proofs::Forms::str_forms))]
pub(crate) fn place_of_str(str: &StrExp) -> At
    ensures { result ≡ module_at (module_phrase (str_phrase str.now)) }
{
    match str {
        StrExp::Struct(_, at) => *at,
        StrExp::Named(_, at) => *at,
        StrExp::Transparent(_, _, at) => *at,
        StrExp::Opaque(_, _, at) => *at,
        StrExp::Functor(_, _, at) => *at,
        StrExp::Within(_, _, at) => *at,
    }
}
