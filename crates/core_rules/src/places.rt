//! Where phrases stand.

ghost use Rattle.std.specs.Prelude.{◌≡◌};
ghost use Rattle.bare_phrases.specs.PhraseOf.{pat_phrase, exp_phrase};
ghost use Rattle.static_semantics.specs.PatternInference.{pat_at};
ghost use Rattle.static_semantics.specs.CoreInference.{exp_at};

use sml_trees::{At, Exp, Pat};

/// The place of a pattern, that of its first word.
#[tactic(auto, using(bare_phrases::proofs::Forms::pat_forms))]
pub fn place_of_pat(pat: &Pat) -> At
    ensures { result ≡ pat_at (pat_phrase pat.now) }
{
    match pat {
        Pat::Wild(at) => *at,
        Pat::Int(_, at) => *at,
        Pat::Str(_, at) => *at,
        Pat::Char(_, at) => *at,
        Pat::Long(_, at) => *at,
        Pat::Record(_, at) => *at,
        Pat::Con(_, _, at) => *at,
        Pat::Typed(_, _, at) => *at,
        Pat::As(_, _, _, at) => *at,
    }
}

/// The place of an expression, that of its first word.
#[tactic(auto, using(bare_phrases::proofs::Forms::exp_forms))]
pub fn place_of_exp(exp: &Exp) -> At
    ensures { result ≡ exp_at (exp_phrase exp.now) }
{
    match exp {
        Exp::Int(_, at) => *at,
        Exp::Str(_, at) => *at,
        Exp::Char(_, at) => *at,
        Exp::Long(_, at) => *at,
        Exp::Record(_, at) => *at,
        Exp::Let(_, _, at) => *at,
        Exp::App(_, _, at) => *at,
        Exp::Typed(_, _, at) => *at,
        Exp::Handle(_, _, at) => *at,
        Exp::Raise(_, at) => *at,
        Exp::Fn(_, at) => *at,
    }
}
