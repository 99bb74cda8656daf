//! The constructors of a datatype: their names, and the types of their arguments.

ghost use Rattle.std.specs.Prelude.{◌≡◌, ◌++◌, ◌∷◌, [], map, IfOk};
ghost use Rattle.std.specs.Option.{option_map};
ghost use Rattle.semantic_objects.specs.declared.entry.ValueEntry.{ValueEntry};
ghost use Rattle.semantic_objects.specs.Tables.{names_of};
ghost use Rattle.bare_phrases.specs.PhraseOf.{ty_phrase, con_phrase};
ghost use Rattle.static_semantics.specs.Inferring.{Scope as Inner};
ghost use Rattle.static_semantics.specs.DatatypeInference.{infer_optional_ty};
ghost use Rattle.core_scopes.specs.Scopes.{written_of};
ghost use Rattle.type_phrases.specs.Inferred.{Answers, IsScopeOver, scope_in};
ghost use Rattle.type_phrases.specs.Steps.{OnlyMakes};
ghost use Rattle.listed_types.specs.Firm.{AreAlone};
ghost use Rattle.datatype_elab.specs.Reading.{Others, check_con, argument_ty, IsArgument, IsConStep, AreConsStep};

use crate::checks::{is_bound, is_one_of, refuse_where};
use cm_base::{Fault, List, NoMemory, Text};
use core_scopes::Scope;
use listed_types::{ListedType, elab_listed};
use name_trails::NameTrail;
use sml_modules::EnvGraph;
use sml_trees::{ConBind, Name};
use sml_types::TypeTable;
use std::alloc::Global;

/// A constructor, with the type of its argument where it takes one.
#[derive(Drop)]
pub(crate) struct ConRead {
    pub(crate) name: Text,
    pub(crate) arg: Option<ListedType>,
}

/// So many variables of a table from a first one on.
#[derive(Clone, Copy, Debug, PartialEq, Eq)]
pub(crate) struct Variables {
    pub(crate) first: usize,
    pub(crate) count: usize,
}

/// 34 at a name that no constructor may have, 40 at one that a constructor before has.
fn check_con(
    alloc: Global,
    g: &EnvGraph,
    refused: &[Text],
    names: &NameTrail<()>,
    name: &Name,
) -> Result<(), Fault>
    ensures { (inner : Inner) (others : Others) → inner.home ≡ g.now.home → names_of names.now ≡ names_of others
        → Answers (check_con inner refused.now name.now others) (λ u. tt) result }
{
    refuse_where(alloc, g, is_one_of(refused, &name.text), 34, name)?;
    refuse_where(alloc, g, is_bound(names, &name.text), 40, name)
}

/// The type of a constructor's argument, if it takes one. A refusal leaves the table as it was.
fn read_argument<V: Copy + Drop>(
    alloc: Global,
    g: &EnvGraph,
    t: &mut TypeTable,
    scope: &Scope<V>,
    variables: Variables,
    con: &ConBind,
) -> Result<Option<ListedType>, Fault>
    requires scope { IsScopeOver g.now t.old scope.now }
    requires alone { AreAlone t.old (written_of scope.now) }
    ensures infers { (read : V → ValueEntry)
        → Answers (infer_optional_ty (scope_in g.now t.old read scope.now) (option_map ty_phrase con.now.arg))
        (argument_ty t.new) result }
    ensures read { IfOk result (IsArgument t.new variables) }
    ensures makes { OnlyMakes t.old t.new }
{
    match &con.arg {
        Some(ty) => {
            let arg = elab_listed(alloc, g, t, scope, variables.first, variables.count, ty)?;
            Ok(Some(arg))
        }
        None => Ok(None),
    }
}

/// A constructor's name is known from here on.
fn add_name(names: &mut NameTrail<()>, name: &Text) -> Result<Text, NoMemory>
    ensures text { IfOk result (λ text. text ≡ name.now) }
    ensures names { IfOk result (λ text. names_of names.new ≡ names_of names.old ++ name.now ∷ []) }
{
    names.bind(name.copy()?, ())?;
    name.copy()
}

/// A constructor after others, whose names are given.
fn read_con<V: Copy + Drop>(
    alloc: Global,
    g: &EnvGraph,
    t: &mut TypeTable,
    scope: &Scope<V>,
    refused: &[Text],
    names: &mut NameTrail<()>,
    variables: Variables,
    con: &ConBind,
) -> Result<ConRead, Fault>
    requires scope { IsScopeOver g.now t.old scope.now }
    requires alone { AreAlone t.old (written_of scope.now) }
    ensures { IsConStep g.now t.old scope.now refused.now names.old variables (con_phrase con.now) t.new names.new result }
{
    check_con(alloc, g, refused, names, &con.name)?;
    let arg = read_argument(alloc, g, t, scope, variables, con)?;
    let name = add_name(names, &con.name.text)?;
    Ok(ConRead { name, arg })
}

/// Constructors after others, whose names are given.
pub(crate) fn read_cons<V: Copy + Drop>(
    alloc: Global,
    g: &EnvGraph,
    t: &mut TypeTable,
    scope: &Scope<V>,
    refused: &[Text],
    names: &mut NameTrail<()>,
    variables: Variables,
    cons: &[ConBind],
) -> Result<List<ConRead>, Fault>
    requires scope { IsScopeOver g.now t.old scope.now }
    requires alone { AreAlone t.old (written_of scope.now) }
    ensures { AreConsStep g.now t.old scope.now refused.now names.old variables (map con_phrase cons.now) t.new names.new result }
{
    let mut made = List::new(alloc);
    for con in cons {
        let next = read_con(alloc, g, t, scope, refused, names, variables, con)?;
        made.add(next)?;
    }
    Ok(made)
}
