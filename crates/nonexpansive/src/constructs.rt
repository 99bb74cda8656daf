//! Names of constructors and exceptions.

ghost use Rattle.std.specs.Prelude.{◌≡◌, false, not, ◌&&◌, IfOk};
ghost use Rattle.semantic_objects.specs.declared.entry.ValueEntry.{ValueEntry};
ghost use Rattle.semantic_objects.specs.Environments.{values};
ghost use Rattle.bare_phrases.specs.PhraseOf.{exp_phrase};
ghost use Rattle.static_semantics.specs.Inferring.{found_at, is_con, stands_for_con};
ghost use Rattle.static_semantics.specs.Nonexpansive.{constructs, ends_in_ref};
ghost use Rattle.core_scopes.specs.Scopes.{seen, entry_of, IsScopeOf};

use cm_base::{NoMemory, Text};
use core_scopes::{Scope, ValueInScope};
use semantic_objects::VidStatus;
use sml_modules::EnvGraph;
use sml_trees::{Exp, LongName};

/// Whether the last part of a long name is `ref`.
fn ends_in_ref(parts: &[Text]) -> bool
    ensures { result ≡ ends_in_ref parts.now }
{
    match parts.split_last() {
        Some((last, _)) => last.as_bytes() == "ref".as_bytes(),
        None => false,
    }
}

/// Whether a status is that of a constructor or of an exception.
fn is_constructing(status: VidStatus) -> bool
    ensures { result ≡ is_con status }
{
    match status {
        VidStatus::Variable => false,
        VidStatus::Constructor | VidStatus::Exception => true,
    }
}

/// Whether a value is a constructor or an exception. What the unit itself made is a variable.
fn is_con<V: Copy + Drop>(value: &ValueInScope<V>) -> bool
    ensures { (read : V → ValueEntry) → ((own : V) → is_con (read own).status ≡ false)
        → result ≡ is_con (entry_of read value.now).status }
{
    match value {
        ValueInScope::Entry(entry) => is_constructing(entry.status),
        ValueInScope::Own(_) => false,
    }
}

/// Whether a long name stands for a constructor or an exception.
fn names_con<V: Copy + Drop>(
    g: &EnvGraph,
    scope: &Scope<V>,
    long: &LongName,
) -> Result<bool, NoMemory>
    requires { IsScopeOf g.now scope.now }
    ensures { IfOk result (λ is. (read : V → ValueEntry) → ((own : V) → is_con (read own).status ≡ false)
        → is ≡ stands_for_con (found_at values long.now.parts (seen g.now read scope.now))) }
{
    match scope.find_long_value(g, long.parts.as_slice())? {
        Some(value) => Ok(is_con(&value)),
        None => Ok(false),
    }
}

/// Whether an expression is the name of a constructor or of an exception, and none of `ref`.
#[tactic(auto, using(crate::proofs::Forms::forms))]
pub(crate) fn constructs<V: Copy + Drop>(
    g: &EnvGraph,
    scope: &Scope<V>,
    exp: &Exp,
) -> Result<bool, NoMemory>
    requires { IsScopeOf g.now scope.now }
    ensures { IfOk result (λ is. (read : V → ValueEntry) → ((own : V) → is_con (read own).status ≡ false)
        → is ≡ constructs (seen g.now read scope.now) (exp_phrase exp.now)) }
{
    match exp {
        Exp::Long(long, _) => Ok(!ends_in_ref(long.parts.as_slice()) && names_con(g, scope, long)?),
        Exp::Int(_, _)
        | Exp::Str(_, _)
        | Exp::Char(_, _)
        | Exp::Record(_, _)
        | Exp::Let(_, _, _)
        | Exp::App(_, _, _)
        | Exp::Typed(_, _, _)
        | Exp::Handle(_, _, _)
        | Exp::Raise(_, _)
        | Exp::Fn(_, _) => Ok(false),
    }
}
