//! The written type variables that a `val` binds.

ghost use Rattle.std.specs.Prelude.{◌≡◌, ◌+◌, ◌∷◌, [], length, map, true, IfOk, OnOk, OnErr};
ghost use Rattle.unification.specs.Instances.{with_variable};
ghost use Rattle.type_nodes.specs.Tables.{state};
ghost use Rattle.type_schemes.specs.Instances.{Extends};
ghost use Rattle.sml_modules.specs.Graphs.{Graph};
ghost use Rattle.bare_phrases.specs.PhraseOf.{rule_phrase, rules_of};
ghost use Rattle.static_semantics.specs.BasicTypes.{is_equality_variable as ranges_over_equality_types};
ghost use Rattle.static_semantics.specs.Inferring.{is_named};
ghost use Rattle.static_semantics.specs.CoreInference.{implicit, own_variables};
ghost use Rattle.core_scopes.specs.Scopes.{written_of, written_rows};
ghost use Rattle.type_phrases.specs.Inferred.{Answers, KeepsTypes, progress};
ghost use Rattle.type_bindings.specs.Listing.{AreMade};
ghost use Rattle.pattern_elab.specs.Scopes.{scope_of};
ghost use Rattle.value_closing.specs.OwnVariables.{written_in_scope, id_rows, AddsImplicit, EntersOwn};

use cm_base::{Fault, List, NoMemory, Text};
use core_scopes::InScope;
use name_trails::NameTrail;
use pattern_elab::CoreScope;
use semantic_objects::TyId;
use sml_modules::EnvGraph;
use sml_trees::{Name, Rule};
use sml_types::TypeTable;
use std::alloc::Global;
use type_bindings::list_variables;
use written_variables::variables_in_val;

/// Whether a type variable ranges over equality types: whether it begins with two apostrophes.
fn is_equality_variable(text: &Text) -> bool
    ensures { result ≡ ranges_over_equality_types text.now }
{
    match text.as_bytes() {
        [first, second, ..] => *first == b'\'' && *second == b'\'',
        _ => false,
    }
}

/// A new variable that stands for itself alone, by its number.
fn new_variable(t: &mut TypeTable, text: &Text) -> Result<usize, NoMemory>
    ensures number { IfOk result (λ number. number ≡ length t.old.births) }
    ensures births { IfOk result (λ number. length t.new.births ≡ length t.old.births + 1) }
    ensures state { IfOk result (λ number.
        state t.new ≡ with_variable true (ranges_over_equality_types text.now) (state t.old)) }
    ensures extends { IfOk result (λ number. Extends t.old t.new) }
    ensures refused { OnErr result (t.new ≡ t.old) }
{
    match t.rigid(is_equality_variable(text))? {
        TyId::Variable(number) => Ok(number),
        TyId::Made(_) => Err(NoMemory),
    }
}

/// Whether a type variable is one of some rows.
fn is_listed(rows: &NameTrail<usize>, text: &Text) -> bool
    ensures { result ≡ is_named text.now rows.now }
{
    match rows.find(text) {
        Some(_) => true,
        None => false,
    }
}

/// Whether a type variable is in scope.
fn is_in_scope(scope: &CoreScope, text: &Text) -> bool
    ensures { result ≡ is_named text.now (written_in_scope scope.now) }
{
    match scope.find_written(text) {
        Some(_) => true,
        None => false,
    }
}

/// A new variable behind others, for a text that is neither one of these nor in scope. After want of memory it may be
/// made, and stands behind none.
fn add_unknown(
    t: &mut TypeTable,
    scope: &CoreScope,
    rows: &mut NameTrail<usize>,
    text: &Text,
) -> Result<(), NoMemory>
    requires { AreMade t.old rows.old }
    ensures added { OnOk result (AddsImplicit (written_in_scope scope.now) (text.now ∷ []) t.old rows.old t.new rows.new) }
    ensures made { AreMade t.new rows.new }
    ensures ids { KeepsTypes t.old t.new }
{
    if is_listed(rows, text) || is_in_scope(scope, text) {
        return Ok(());
    }
    t.is_kept();
    let name = text.copy()?;
    let number = new_variable(t, text)?;
    rows.bind(name, number)?;
    Ok(())
}

/// The same for each of some texts.
fn add_implicit(
    t: &mut TypeTable,
    scope: &CoreScope,
    rows: &mut NameTrail<usize>,
    texts: &[Text],
) -> Result<(), NoMemory>
    requires { AreMade t.old rows.old }
    ensures added { OnOk result (AddsImplicit (written_in_scope scope.now) texts.now t.old rows.old t.new rows.new) }
    ensures made { AreMade t.new rows.new }
    ensures ids { KeepsTypes t.old t.new }
{
    for text in texts {
        add_unknown(t, scope, rows, text)?;
    }
    Ok(())
}

/// Variables with their ids, to be bound.
fn rows_of(alloc: Global, own: &[(Text, usize)]) -> Result<List<InScope>, NoMemory>
    ensures { IfOk result (λ rows. written_rows rows ≡ id_rows own.now) }
{
    let mut rows = List::new(alloc);
    for row in own {
        rows.add(InScope {
            name: row.0.copy()?,
            is: TyId::Variable(row.1),
        })?;
    }
    Ok(rows)
}

/// Enters variables into a scope, in front of those in scope. Want of memory leaves it as it was.
fn enter(alloc: Global, scope: &mut CoreScope, own: &[(Text, usize)]) -> Result<(), NoMemory>
    ensures ok { OnOk result ((g : Graph) → EntersOwn g own.now scope.old scope.new) }
    ensures err { OnErr result (scope.new ≡ scope.old) }
{
    let rows = rows_of(alloc, own)?;
    scope.bind_written(&rows)?;
    Ok(())
}

/// The written type variables that a `val` binds, each with the number of a new variable that stands for itself alone:
/// those of its list, 40 at one that stands in it before; then those that stand unguarded in it and are neither in the
/// list nor in scope, in the order of their first places. They are entered into the scope in front of those in scope,
/// and a mark from before leaves them again. A refusal leaves the scope as it was, and the table may have variables
/// more. It takes as many steps as the `val` is large without those inside it. The Definition of Standard ML (Revised),
/// section 4.6.
pub fn own_variables(
    alloc: Global,
    g: &EnvGraph,
    t: &mut TypeTable,
    scope: &mut CoreScope,
    tyvars: &[Name],
    binds: &List<Rule>,
    recs: &List<Rule>,
) -> Result<NameTrail<usize>, Fault>
    ensures infers { Answers (own_variables (scope_of g.now scope.old) tyvars.now
        (rules_of (map rule_phrase binds.now)) (rules_of (map rule_phrase recs.now)) (progress t.old g.now))
        (λ own. (own, progress t.new g.now)) result }
    ensures ok { IfOk result (λ own. EntersOwn g.now own scope.old scope.new) }
    ensures err { OnErr result (scope.new ≡ scope.old) }
    ensures made { IfOk result (AreMade t.new) }
    ensures ids { KeepsTypes t.old t.new }
{
    let mut own = list_variables(alloc, g, t, tyvars)?;
    let texts = variables_in_val(alloc, binds, recs)?;
    add_implicit(t, scope, &mut own, texts.as_slice())?;
    enter(alloc, scope, own.rows())?;
    Ok(own)
}
