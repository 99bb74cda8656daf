//! The datatypes of a declaration: the variables of each, and its constructors.

ghost use Rattle.std.specs.Prelude.{◌≡◌, ℕ, length, map, IfOk};
ghost use Rattle.bare_phrases.specs.PhraseOf.{con_phrase, dat_phrase};
ghost use Rattle.static_semantics.specs.TypeInference.{numbers};
ghost use Rattle.static_semantics.specs.DatatypeInference.{counted};
ghost use Rattle.core_scopes.specs.Scopes.{written_rows, IsScopeOf};
ghost use Rattle.datatype_elab.specs.Listing.{row_ids, IsListIn, AreConsUnder, IsDatStep, AreDatsStep};

use crate::cons::{ConRead, Variables, read_cons};
use cm_base::{Fault, List, NoMemory, Text};
use core_scopes::{InScope, Scope};
use name_trails::NameTrail;
use semantic_objects::TyId;
use sml_modules::EnvGraph;
use sml_trees::{ConBind, DatBind};
use sml_types::TypeTable;
use std::alloc::Global;
use type_bindings::list_variables;

/// A datatype: its list of type variables, of which the table has so many from a first one on, and its constructors.
#[derive(Drop)]
pub(crate) struct DatRead {
    pub(crate) name: Text,
    pub(crate) list: NameTrail<usize>,
    pub(crate) variables: Variables,
    pub(crate) cons: List<ConRead>,
}

/// The variables of a list as they are written, each for itself.
fn written_list(alloc: Global, list: &NameTrail<usize>) -> Result<List<InScope>, NoMemory>
    ensures { IfOk result (λ written. written_rows written ≡ row_ids list.now) }
{
    let mut written = List::new(alloc);
    for row in list.rows() {
        written.add(InScope {
            name: row.0.copy()?,
            is: TyId::Variable(row.1),
        })?;
    }
    Ok(written)
}

/// The numbers of a list whose numbers follow one another.
fn variables_of(list: &NameTrail<usize>) -> Variables
    ensures numbers { (n k : ℕ) → numbers list.now ≡ counted k n
        → numbers list.now ≡ counted result.count result.first }
    ensures count { result.count ≡ length list.now }
{
    let rows = list.rows();
    let count = rows.len();
    if count == 0 {
        return Variables { first: 0, count };
    }
    Variables {
        first: rows[0].1,
        count,
    }
}

/// Constructors under the variables of a list alone. The scope is left as it was.
fn cons_under<V: Copy + Drop>(
    alloc: Global,
    g: &EnvGraph,
    t: &mut TypeTable,
    scope: &mut Scope<V>,
    refused: &[Text],
    names: &mut NameTrail<()>,
    list: &NameTrail<usize>,
    variables: Variables,
    cons: &[ConBind],
) -> Result<List<ConRead>, Fault>
    requires scope { IsScopeOf g.now scope.old }
    requires list { IsListIn t.old list.now }
    ensures cons { AreConsUnder g.now t.old scope.old list.now refused.now names.old variables (map con_phrase cons.now)
        t.new names.new result }
    ensures scope { scope.new ≡ scope.old }
{
    let written = written_list(alloc, list)?;
    let before = scope.mark();
    scope.bind_written_alone(&written)?;
    let made = read_cons(alloc, g, t, scope, refused, names, variables, cons);
    scope.leave(before);
    made
}

/// A datatype after others, the names of whose constructors are given. The scope is left as it was.
fn read_dat<V: Copy + Drop>(
    alloc: Global,
    g: &EnvGraph,
    t: &mut TypeTable,
    scope: &mut Scope<V>,
    refused: &[Text],
    names: &mut NameTrail<()>,
    bind: &DatBind,
) -> Result<DatRead, Fault>
    requires { IsScopeOf g.now scope.old }
    ensures dat { IsDatStep g.now t.old scope.old refused.now names.old (dat_phrase bind.now) t.new names.new result }
    ensures scope { scope.new ≡ scope.old }
{
    t.is_kept();
    let name = bind.name.text.copy()?;
    let list = list_variables(alloc, g, t, bind.tyvars.as_slice())?;
    let variables = variables_of(&list);
    let cons = bind.cons.as_slice();
    let cons = cons_under(alloc, g, t, scope, refused, names, &list, variables, cons)?;
    Ok(DatRead {
        name,
        list,
        variables,
        cons,
    })
}

/// The datatypes of a declaration in a scope that has their names. The scope is left as it was.
pub(crate) fn read_dats<V: Copy + Drop>(
    alloc: Global,
    g: &EnvGraph,
    t: &mut TypeTable,
    scope: &mut Scope<V>,
    refused: &[Text],
    binds: &[DatBind],
) -> Result<List<DatRead>, Fault>
    requires { IsScopeOf g.now scope.old }
    ensures dats { AreDatsStep g.now t.old scope.old refused.now (map dat_phrase binds.now) t.new result }
    ensures scope { scope.new ≡ scope.old }
{
    let mut names = NameTrail::new(alloc);
    let mut made = List::new(alloc);
    for bind in binds {
        let next = read_dat(alloc, g, t, scope, refused, &mut names, bind)?;
        made.add(next)?;
    }
    Ok(made)
}
