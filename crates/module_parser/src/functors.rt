//! Functors, and signatures of functors.

ghost use Rattle.std.specs.Prelude.{◌≡◌, None, Some};
ghost use Rattle.grammars.specs.Grammar.{head_or};
ghost use Rattle.infix_names.specs.Fixities.{initial};
ghost use Rattle.phrase_reading.specs.Reads.{Reads};
ghost use Rattle.module_parser.specs.Functors.{begin_at, named_param, spec_param, functor_param, fun_bind, funsig_bind};
ghost use Rattle.signature_parser.specs.Joined.{bindings, bindings_from};
ghost use Rattle.signature_parser.specs.Rounds.{next_begin};
ghost use Rattle.signature_parser.specs.Specifications.{is_spec_round};
ghost use Rattle.module_parser.specs.StrLevels.{str_level};
ghost use Rattle.module_parser.specs.Structures.{str};

use crate::seals::maybe_seal;
use crate::str_exps::str_exp;
use cm_base::List;
use infix_names::fixity::Fixities;
use phrase_reading::lexeme;
use phrase_reading::lexemes::Lexemes;
use phrase_reading::stop::Stop;
use phrase_reading::tall::Tall;
use signature_parser::joined::{Joined, alone, joined_more, joined_one, next_name};
use signature_parser::names::{module_name, sees_module_name};
use signature_parser::rounds::next_spec;
use signature_parser::sig_exps::{sig, specs};
use sml_lexer::Word;
use sml_trees::{At, FullFunctorBind, FullFunsigBind, FullParam, FullStrExp, Name};
use std::alloc::Global;

/// `strid : sigexp`, behind the name.
#[tactic(auto, unfolding(crate::specs::Functors::named_param, signature_parser::specs::Joined::alone))]
fn named_param(
    alloc: Global,
    lexemes: &mut Lexemes<'_>,
    levels: u32,
    name: Name,
) -> Result<Tall<FullParam>, Stop>
    ensures { Reads (named_param levels name) lexemes.old.rest.now result lexemes.new.rest.now }
{
    lexemes.expect(Word::Colon)?;
    let whole = sig(alloc, lexemes, levels)?;
    let found = alone(lexemes, whole)?;
    Ok(Tall {
        tree: FullParam::Named(name, found.tree),
        height: found.height,
    })
}

/// Where specifications begin: at the next lexeme, or at the functor's name where there are none.
fn begin_of(lexemes: &Lexemes<'_>, functor: &Name) -> At
    ensures { result ≡ begin_at (next_begin is_spec_round (head_or lexemes.now.rest.now None)) functor.now }
{
    match next_spec(lexemes) {
        Some(first) => lexeme::at(first),
        None => At {
            line: functor.line,
            col: functor.col,
        },
    }
}

/// Specifications, of which there may be none.
#[tactic(auto, using(crate::proofs::TopSteps::param_steps))]
fn spec_param(
    alloc: Global,
    lexemes: &mut Lexemes<'_>,
    levels: u32,
    functor: &Name,
) -> Result<Tall<FullParam>, Stop>
    ensures { Reads (spec_param levels functor.now) lexemes.old.rest.now result lexemes.new.rest.now }
{
    let begin = begin_of(lexemes, functor);
    let found = specs(alloc, lexemes, levels)?;
    Ok(Tall {
        tree: FullParam::Spec(found.tree, begin),
        height: found.height,
    })
}

/// What a functor takes.
#[tactic(auto, using(phrase_reading::proofs::NameSteps::if_taken_steps), unfolding(crate::specs::Functors::functor_param))]
fn functor_param(
    alloc: Global,
    lexemes: &mut Lexemes<'_>,
    levels: u32,
    functor: &Name,
) -> Result<Tall<FullParam>, Stop>
    ensures { Reads (functor_param levels functor.now) lexemes.old.rest.now result lexemes.new.rest.now }
{
    if sees_module_name(lexemes) {
        let name = module_name(lexemes)?;
        return named_param(alloc, lexemes, levels, name);
    }
    spec_param(alloc, lexemes, levels, functor)
}

/// The body of a functor. It begins with the infix names of the initial basis.
fn body(alloc: Global, lexemes: &mut Lexemes<'_>, levels: u32) -> Result<Joined<FullStrExp>, Stop>
    ensures { Reads (str (str_level levels) initial) lexemes.old.rest.now result lexemes.new.rest.now }
{
    let mut fixities = Fixities::initial(alloc)?;
    str_exp(alloc, lexemes, &mut fixities, levels)
}

/// A functor behind its name, over parts of so many levels.
#[tactic(auto, unfolding(crate::specs::Functors::fun_bind))]
fn fun_bind(
    alloc: Global,
    lexemes: &mut Lexemes<'_>,
    levels: u32,
    name: Name,
) -> Result<Joined<FullFunctorBind>, Stop>
    ensures { Reads (fun_bind levels name) lexemes.old.rest.now result lexemes.new.rest.now }
{
    lexemes.expect(Word::Open)?;
    let param = functor_param(alloc, lexemes, levels, &name)?;
    lexemes.expect(Word::Close)?;
    let seal = maybe_seal(alloc, lexemes, levels)?;
    lexemes.expect(Word::Equals)?;
    let Joined { made, joined } = body(alloc, lexemes, levels)?;
    let Tall { tree, height } = made;
    Ok(Joined {
        made: Tall {
            tree: FullFunctorBind {
                name,
                param: param.tree,
                seal: seal.tree,
                body: tree,
            },
            height: param.height.max(seal.height).max(height),
        },
        joined,
    })
}

/// Further functors, each behind its `and`.
#[tactic(auto, using(signature_parser::proofs::BoundSteps::bindings_steps))]
fn fun_binds_from(
    alloc: Global,
    lexemes: &mut Lexemes<'_>,
    levels: u32,
    found: Joined<List<FullFunctorBind>>,
) -> Result<Joined<List<FullFunctorBind>>, Stop>
    ensures { Reads (bindings_from (fun_bind levels) found) lexemes.old.rest.now result lexemes.new.rest.now }
{
    let mut found = found;
    while let Some(name) = next_name(lexemes, found.joined)? {
        let next = fun_bind(alloc, lexemes, levels, name)?;
        found = joined_more(found, next)?;
    }
    Ok(found)
}

/// Functors.
#[tactic(auto, unfolding(signature_parser::specs::Joined::bindings))]
pub fn fun_binds(
    alloc: Global,
    lexemes: &mut Lexemes<'_>,
    levels: u32,
) -> Result<Tall<List<FullFunctorBind>>, Stop>
    ensures { Reads (bindings (fun_bind levels)) lexemes.old.rest.now result lexemes.new.rest.now }
{
    let name = module_name(lexemes)?;
    let first = fun_bind(alloc, lexemes, levels, name)?;
    let found = joined_one(alloc, first)?;
    let found = fun_binds_from(alloc, lexemes, levels, found)?;
    alone(lexemes, found)
}

/// A signature of functors behind its name, over parts of so many levels.
#[tactic(auto, unfolding(crate::specs::Functors::funsig_bind, signature_parser::specs::Joined::alone))]
fn funsig_bind(
    alloc: Global,
    lexemes: &mut Lexemes<'_>,
    levels: u32,
    name: Name,
) -> Result<Joined<FullFunsigBind>, Stop>
    ensures { Reads (funsig_bind levels name) lexemes.old.rest.now result lexemes.new.rest.now }
{
    lexemes.expect(Word::Open)?;
    let param = module_name(lexemes)?;
    lexemes.expect(Word::Colon)?;
    let whole = sig(alloc, lexemes, levels)?;
    let param_sig = alone(lexemes, whole)?;
    lexemes.expect(Word::Close)?;
    lexemes.expect(Word::Equals)?;
    let Joined { made, joined } = sig(alloc, lexemes, levels)?;
    let Tall { tree, height } = made;
    Ok(Joined {
        made: Tall {
            tree: FullFunsigBind {
                name,
                param,
                param_sig: param_sig.tree,
                result_sig: tree,
            },
            height: param_sig.height.max(height),
        },
        joined,
    })
}

/// Further signatures of functors, each behind its `and`.
#[tactic(auto, using(signature_parser::proofs::BoundSteps::bindings_steps))]
fn funsig_binds_from(
    alloc: Global,
    lexemes: &mut Lexemes<'_>,
    levels: u32,
    found: Joined<List<FullFunsigBind>>,
) -> Result<Joined<List<FullFunsigBind>>, Stop>
    ensures { Reads (bindings_from (funsig_bind levels) found) lexemes.old.rest.now result lexemes.new.rest.now }
{
    let mut found = found;
    while let Some(name) = next_name(lexemes, found.joined)? {
        let next = funsig_bind(alloc, lexemes, levels, name)?;
        found = joined_more(found, next)?;
    }
    Ok(found)
}

/// Signatures of functors.
#[tactic(auto, unfolding(signature_parser::specs::Joined::bindings))]
pub fn funsig_binds(
    alloc: Global,
    lexemes: &mut Lexemes<'_>,
    levels: u32,
) -> Result<Tall<List<FullFunsigBind>>, Stop>
    ensures { Reads (bindings (funsig_bind levels)) lexemes.old.rest.now result lexemes.new.rest.now }
{
    let name = module_name(lexemes)?;
    let first = funsig_bind(alloc, lexemes, levels, name)?;
    let found = joined_one(alloc, first)?;
    let found = funsig_binds_from(alloc, lexemes, levels, found)?;
    alone(lexemes, found)
}
