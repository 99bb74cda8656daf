//! Making two types one, or refusing it.

ghost use Rattle.std.specs.Prelude.{◌≡◌, ◌<◌, ◌++◌, ◌∷◌, [], length, true, false, Some, slice_get};
ghost use Rattle.unification.specs.Types.{occurs};
ghost use Rattle.unification.specs.Unification.{assign, link, solve, unify_in};
ghost use Rattle.type_nodes.specs.Tables.{Has, IsHead, IsEnd, state, whole, type_of, rank};
ghost use Rattle.type_nodes.specs.Keeping.{IsOpen};
ghost use Rattle.sml_types.specs.Unifying.{Grown, NamesOwn, Solved, Sought};
ghost use Rattle.sml_types.specs.Pairs.{
  Meeting,
  meeting_answer,
  AreOne,
  AreThese,
  ArePairs,
  no_exception,
  unify_left,
  Stepping,
};

use crate::fault::TypeFault;
use crate::notes::Notes;
use crate::occurs::occurs;
use crate::pair::{Pair, join, root};
use crate::require::require;
use cm_base::{List, NoMemory};
use semantic_objects::TyId;
use std::alloc::Global;
use type_nodes::TypeBindings;

/// Puts a type in for an equality variable.
fn assign_marked(
    table: &mut TypeBindings,
    alloc: Global,
    variable: usize,
    to: TyId,
) -> Result<(), TypeFault>
    requires at { IsOpen table.old variable }
    requires has { Has table.old to }
    requires head { IsHead table.old to }
    requires absent { occurs variable (whole table.old to) ≡ false }
    requires falls { rank table.old to < rank table.old (TyId.Variable variable) }
    requires marked { (state table.old).marks variable ≡ true }
    ensures answer { Solved (assign variable (whole table.old to) (state table.old)) result (state table.new) }
    ensures named { NamesOwn table.old result }
    ensures grown { Grown table.old table.new }
{
    table.is_kept();
    require(table, alloc, to)?;
    table.is_kept();
    table.bind(variable, to)?;
    Ok(())
}

/// Puts a type in for a variable.
fn assign(
    table: &mut TypeBindings,
    alloc: Global,
    variable: usize,
    to: TyId,
) -> Result<(), TypeFault>
    requires at { IsOpen table.old variable }
    requires has { Has table.old to }
    requires head { IsHead table.old to }
    requires absent { occurs variable (whole table.old to) ≡ false }
    requires falls { rank table.old to < rank table.old (TyId.Variable variable) }
    ensures answer { Solved (assign variable (whole table.old to) (state table.old)) result (state table.new) }
    ensures named { NamesOwn table.old result }
    ensures grown { Grown table.old table.new }
{
    if table.is_marked(variable) {
        assign_marked(table, alloc, variable, to)
    } else {
        table.bind(variable, to)?;
        Ok(())
    }
}

/// Makes two variables one for which nothing stands.
fn link(
    table: &mut TypeBindings,
    alloc: Global,
    first: usize,
    second: usize,
) -> Result<(), TypeFault>
    requires first { first < length table.old.births }
    requires second { second < length table.old.births }
    requires first_end { IsEnd table.old (TyId.Variable first) }
    requires second_end { IsEnd table.old (TyId.Variable second) }
    ensures answer { Solved (link first second (state table.old)) result (state table.new) }
    ensures named { NamesOwn table.old result }
    ensures grown { Grown table.old table.new }
{
    table.is_kept();
    if first == second {
        return Ok(());
    }
    match (table.birth(first).rigid, table.birth(second).rigid) {
        (false, false) => {
            if first < second {
                assign(table, alloc, second, TyId::Variable(first))
            } else {
                assign(table, alloc, first, TyId::Variable(second))
            }
        }
        (false, true) => assign(table, alloc, first, TyId::Variable(second)),
        (true, false) => assign(table, alloc, second, TyId::Variable(first)),
        (true, true) => Err(TypeFault::Clash(TyId::Variable(first), TyId::Variable(second))),
    }
}

/// Makes a variable for which nothing stands one with a node.
fn solve(
    table: &mut TypeBindings,
    alloc: Global,
    variable: usize,
    node: usize,
) -> Result<(), TypeFault>
    requires variable { variable < length table.old.births }
    requires end { IsEnd table.old (TyId.Variable variable) }
    requires node { node < length table.old.nodes }
    ensures answer { Solved (solve variable (whole table.old (TyId.Made node)) (state table.old)) result (state table.new) }
    ensures named { NamesOwn table.old result }
    ensures grown { Grown table.old table.new }
{
    table.is_kept();
    if table.birth(variable).rigid {
        return Err(TypeFault::Clash(TyId::Variable(variable), TyId::Made(node)));
    }
    if occurs(table, alloc, variable, TyId::Made(node))? {
        return Err(TypeFault::Circular(TyId::Variable(variable), TyId::Made(node)));
    }
    assign(table, alloc, variable, TyId::Made(node))
}

/// Looks at two nodes. Their parts are to be gone through where they aren't one already.
fn meet_nodes(
    table: &TypeBindings,
    left: usize,
    right: usize,
    depth: usize,
    same: &Notes,
    pairs: &mut List<Pair>,
) -> Result<(), TypeFault>
    requires left { left < length table.now.nodes }
    requires right { right < length table.now.nodes }
    requires one { AreOne table.now (state table.now) same.now }
    ensures answer { Meeting table.now table.now (meeting_answer table.now depth (TyId.Made left) (TyId.Made right) pairs.old)
        (AreThese (state table.now) (type_of table.now (TyId.Made left)) (type_of table.now (TyId.Made right)))
        pairs.old pairs.new result }
    ensures named { NamesOwn table.now result }
{
    table.is_kept();
    if depth == 0 {
        return Err(TypeFault::NoMemory);
    }
    let this = root(table, same, left);
    let that = root(table, same, right);
    if this == that {
        if table.nodes() < depth - 1 {
            return Ok(());
        }
        return Err(TypeFault::NoMemory);
    }
    if table.node(this).symbol.is_same(&table.node(that).symbol) {
        pairs.add(Pair {
            left: this,
            right: that,
            next: 0,
            depth: depth - 1,
        })?;
        Ok(())
    } else {
        Err(TypeFault::Clash(TyId::Made(left), TyId::Made(right)))
    }
}

/// Looks at two ids, of which what they stand for is to be made one.
fn meet_ends(
    table: &mut TypeBindings,
    alloc: Global,
    left: TyId,
    right: TyId,
    depth: usize,
    same: &Notes,
    pairs: &mut List<Pair>,
) -> Result<(), TypeFault>
    requires left { Has table.old left }
    requires right { Has table.old right }
    requires one { AreOne table.old (state table.old) same.now }
    ensures answer { Meeting table.old table.new (meeting_answer table.old depth left right pairs.old)
        (AreThese (state table.old) (type_of table.old left) (type_of table.old right)) pairs.old pairs.new result }
    ensures named { NamesOwn table.old result }
    ensures grown { Grown table.old table.new }
{
    if depth == 0 {
        return Err(TypeFault::NoMemory);
    }
    table.is_kept();
    match (table.head(left), table.head(right)) {
        (TyId::Variable(v), TyId::Variable(w)) => link(table, alloc, v, w),
        (TyId::Variable(v), TyId::Made(i)) => solve(table, alloc, v, i),
        (TyId::Made(i), TyId::Variable(v)) => solve(table, alloc, v, i),
        (TyId::Made(i), TyId::Made(j)) => meet_nodes(table, i, j, depth, same, pairs),
    }
}

/// The same, and the ways from both are shorter from then on.
fn meet(
    table: &mut TypeBindings,
    alloc: Global,
    left: TyId,
    right: TyId,
    depth: usize,
    same: &Notes,
    pairs: &mut List<Pair>,
) -> Result<(), TypeFault>
    requires left { Has table.old left }
    requires right { Has table.old right }
    requires one { AreOne table.old (state table.old) same.now }
    ensures answer { Meeting table.old table.new (meeting_answer table.old depth left right pairs.old)
        (AreThese (state table.old) (type_of table.old left) (type_of table.old right)) pairs.old pairs.new result }
    ensures named { NamesOwn table.old result }
    ensures grown { Grown table.old table.new }
{
    table.shorten(left);
    table.shorten(right);
    meet_ends(table, alloc, left, right, depth, same, pairs)
}

/// Makes the next parts of the last pair one.
fn meet_next(
    table: &mut TypeBindings,
    alloc: Global,
    pair: Pair,
    same: &mut Notes,
    pairs: &mut List<Pair>,
) -> Result<(), TypeFault>
    requires one { AreOne table.old (state table.old) same.old }
    requires pairs { ArePairs table.old (state table.old) no_exception (pairs.old ++ pair ∷ []) }
    ensures answer { Stepping table.old table.new (pairs.old ++ pair ∷ []) pairs.new same.new result }
    ensures named { NamesOwn table.old result }
    ensures grown { Grown table.old table.new }
{
    table.is_kept();
    match pair.parts(table)? {
        None => {
            join(table, same, pair.left, pair.right)?;
            Ok(())
        }
        Some((left, right)) => {
            pairs.add(pair.after()?)?;
            meet(table, alloc, left, right, pair.depth, same, pairs)
        }
    }
}

/// Makes what two ids stand for one, going at most so deep.
pub(crate) fn unify_below(
    table: &mut TypeBindings,
    alloc: Global,
    left: TyId,
    right: TyId,
    depth: usize,
) -> Result<(), TypeFault>
    requires left { Has table.old left }
    requires right { Has table.old right }
    ensures answer { Sought (unify_in depth (whole table.old left) (whole table.old right) (state table.old)) result (state table.new) }
    ensures named { NamesOwn table.old result }
    ensures grown { Grown table.old table.new }
{
    table.is_kept();
    let mut pairs = List::new(alloc);
    let mut same = Notes::new(alloc);
    meet(table, alloc, left, right, depth, &same, &mut pairs)?;
    let mut steps = usize::MAX;
    while let Some(pair) = pairs.pop() {
        if steps == 0 {
            return Err(TypeFault::NoMemory);
        }
        steps -= 1;
        meet_next(table, alloc, pair, &mut same, &mut pairs)?;
    }
    Ok(())
}
