//! Types as a case writes them, the parts before what stands over them: `0` to `9` for the variables of a scheme, `a`
//! to `h` for those of a table, `n`, `i` and `x` for `int`, `bool` and `exn`, `m` for a name of a binder, `u` and `w`
//! for the first and the third name of a unit and `o` for the first one of another, `l` for lists of one, `k` for the
//! second name of the unit over one, `p` for another one of the binder over two, `>` for functions of two, and `*` for
//! pairs of two.

ghost use Rattle.std.specs.Prelude.{◌≡◌, IsTrue, IfOk};
ghost use Rattle.semantic_objects.specs.Trees.{BindsBelow};
ghost use Rattle.graph_cases.specs.Below.{IsNodeBelow};

use cm_base::{List, NoMemory, Text};
use semantic_objects::{Owner, TreeField, TreePart, TyId, TyName, TypeNode, TypeTree};
use std::alloc::Global;

/// The unit that owns the names written as `u`, `k` and `w`.
const UNIT: &[u8] = b"a.sml";

/// The unit that owns the name written as `o`.
const OTHER: &[u8] = b"b.sml";

/// A type name over one type.
fn over_one(
    alloc: Global,
    owner: Owner,
    number: u64,
    item: TypeTree,
) -> Result<TypeTree, NoMemory> {
    let name = TyName {
        owner,
        number,
        arity: 1,
        eq: true,
    };
    let mut args = List::new(alloc);
    args.add(item)?;
    TypeTree::make(alloc, TreePart::Named(name, args))
}

/// The binder's name over two types, the last two.
fn over_two(alloc: Global, stack: &mut List<TypeTree>) -> Result<Option<TypeTree>, NoMemory> {
    match (stack.pop(), stack.pop()) {
        (Some(second), Some(first)) => {
            let name = TyName {
                owner: Owner::Bound,
                number: 1,
                arity: 2,
                eq: true,
            };
            let mut args = List::new(alloc);
            args.add(first)?;
            args.add(second)?;
            Ok(Some(TypeTree::make(alloc, TreePart::Named(name, args))?))
        }
        _ => Ok(None),
    }
}

/// The name that a letter writes, if it writes one.
pub fn name_of(alloc: Global, letter: u8) -> Result<Option<TyName>, NoMemory> {
    let unit = Text::from_bytes(alloc, if letter == b'o' { OTHER } else { UNIT })?;
    let (owner, number, arity) = match letter {
        b'n' => (Owner::Basis, 0, 0),
        b'i' => (Owner::Basis, 1, 0),
        b'l' => (Owner::Basis, 4, 1),
        b'x' => (Owner::Basis, 7, 0),
        b'm' => (Owner::Bound, 0, 0),
        b'p' => (Owner::Bound, 1, 2),
        b'u' | b'o' => (Owner::Unit(unit), 0, 0),
        b'k' => (Owner::Unit(unit), 1, 1),
        b'w' => (Owner::Unit(unit), 2, 0),
        _ => return Ok(None),
    };
    Ok(Some(TyName {
        owner,
        number,
        arity,
        eq: letter != b'x',
    }))
}

/// The type name that a letter writes, if it writes one without arguments.
fn name_tree(alloc: Global, letter: u8) -> Result<Option<TypeTree>, NoMemory> {
    match name_of(alloc, letter)? {
        Some(name) if name.arity == 0 => {
            let part = TreePart::Named(name, List::new(alloc));
            Ok(Some(TypeTree::make(alloc, part)?))
        }
        _ => Ok(None),
    }
}

/// A type of one letter.
fn leaf_tree(alloc: Global, letter: u8) -> Result<Option<TypeTree>, NoMemory> {
    let part = match letter {
        b'0'..=b'9' => TreePart::Bound(u32::from(letter - b'0')),
        b'a'..=b'h' => TreePart::Free(TyId::Variable(usize::from(letter - b'a'))),
        _ => return name_tree(alloc, letter),
    };
    Ok(Some(TypeTree::make(alloc, part)?))
}

/// A field of a record type.
fn field_of(alloc: Global, label: &[u8], part: TypeTree) -> Result<TreeField, NoMemory>
    ensures { IfOk result (λ field. field.label ≡ label.now) }
{
    let label = Text::from_bytes(alloc, label)?;
    Ok(TreeField { label, part })
}

/// A pair of the last two types: a record type whose labels are `1` and `2`.
fn pair_tree(alloc: Global, stack: &mut List<TypeTree>) -> Result<Option<TypeTree>, NoMemory> {
    match (stack.pop(), stack.pop()) {
        (Some(second), Some(first)) => {
            let mut fields = List::new(alloc);
            fields.add(field_of(alloc, b"1", first)?)?;
            fields.add(field_of(alloc, b"2", second)?)?;
            Ok(Some(TypeTree::make(alloc, TreePart::Record(fields))?))
        }
        _ => Ok(None),
    }
}

/// A function type of the last two types.
fn arrow_tree(alloc: Global, stack: &mut List<TypeTree>) -> Result<Option<TypeTree>, NoMemory> {
    match (stack.pop(), stack.pop()) {
        (Some(to), Some(from)) => Ok(Some(TypeTree::make(alloc, TreePart::Arrow(from, to))?)),
        _ => Ok(None),
    }
}

/// The type that a letter makes, of those that stand before it where it takes any.
fn letter_tree(
    alloc: Global,
    stack: &mut List<TypeTree>,
    letter: u8,
) -> Result<Option<TypeTree>, NoMemory> {
    match letter {
        b'>' => arrow_tree(alloc, stack),
        b'*' => pair_tree(alloc, stack),
        b'l' => match stack.pop() {
            Some(item) => Ok(Some(over_one(alloc, Owner::Basis, 4, item)?)),
            None => Ok(None),
        },
        b'k' => match stack.pop() {
            Some(item) => {
                let unit = Text::from_bytes(alloc, UNIT)?;
                Ok(Some(over_one(alloc, Owner::Unit(unit), 1, item)?))
            }
            None => Ok(None),
        },
        b'p' => over_two(alloc, stack),
        _ => leaf_tree(alloc, letter),
    }
}

/// The type that is written.
pub fn read_type(alloc: Global, letters: &[u8]) -> Result<Option<TypeTree>, NoMemory> {
    let mut stack = List::new(alloc);
    for letter in letters {
        match letter_tree(alloc, &mut stack, *letter)? {
            Some(tree) => stack.add(tree)?,
            None => return Ok(None),
        }
    }
    match stack.pop() {
        Some(tree) if stack.is_empty() => Ok(Some(tree)),
        _ => Ok(None),
    }
}

/// Whether a node is no variable of a scheme past so many.
fn is_below(node: &TypeNode, count: usize) -> bool
    ensures { IsTrue result → IsNodeBelow count node.now }
{
    match node {
        TypeNode::Bound(i) => (*i as usize) < count,
        TypeNode::Free(_) => true,
        TypeNode::Made(_, _) => true,
    }
}

/// Whether all variables of a scheme that stand in a type are among so many.
pub fn binds_below(tree: &TypeTree, count: usize) -> bool
    ensures { IsTrue result → BindsBelow count tree.now }
{
    let nodes = tree.nodes();
    for node in nodes {
        if !is_below(node, count) {
            return false;
        }
    }
    true
}
