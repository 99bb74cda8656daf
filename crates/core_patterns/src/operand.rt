//! Operands of patterns, and runs of them.

ghost use Rattle.std.specs.Prelude.{◌≡◌, max, IfOk};
ghost use Rattle.phrase_reading.specs.Sized.{leaf};
ghost use Rattle.core_patterns.specs.Patterns.{plain, takes, start, with_argument, with_operand, simple, leaf_id, no_type, some_type, operand_height};

use cm_base::{List, NoMemory};
use infix_names::fixity::open_after;
use phrase_reading::tall::Tall;
use sml_trees::{At, Fixity, FullPat, FullPatItem, FullTy, Name, OpLong, OpName};
use std::alloc::Global;

/// An atomic pattern: an identifier, which may have an argument behind it, or another one.
#[derive(Drop)]
pub enum Operand {
    Id(OpLong),
    Other(Tall<FullPat>),
}

/// What was read of a run: its parts, the operators that are open, whether an argument may follow, and the height of
/// the highest part.
#[derive(Drop)]
pub struct Run {
    pub items: List<FullPatItem>,
    pub ops: List<Fixity>,
    pub takes: bool,
    pub height: u32,
}

/// A pattern of one level.
pub fn leaf_pat(tree: FullPat) -> Tall<FullPat>
    ensures { result ≡ leaf tree }
{
    Tall { tree, height: 1 }
}

/// An operand as a pattern.
pub fn plain(place: At, operand: Operand) -> Tall<FullPat>
    ensures made { result ≡ plain place operand }
    ensures height { result.height ≡ operand_height operand }
{
    match operand {
        Operand::Id(id) => Tall {
            tree: FullPat::Long(id, place),
            height: 1,
        },
        Operand::Other(pat) => pat,
    }
}

/// Whether an operand may take an argument.
pub fn takes(operand: &Operand) -> bool
    ensures { result ≡ takes operand.now }
{
    match operand {
        Operand::Id(_) => true,
        Operand::Other(_) => false,
    }
}

/// A run of one operand so far.
pub fn start(alloc: Global, place: At, operand: Operand) -> Result<Run, NoMemory>
    ensures made { IfOk result (λ run. run ≡ start place operand) }
    ensures height { IfOk result (λ run. run.height ≡ operand_height operand) }
{
    let takes = takes(&operand);
    let first = plain(place, operand);
    let mut items = List::new(alloc);
    items.add(FullPatItem::Atom(first.tree))?;
    Ok(Run {
        items,
        ops: List::new(alloc),
        takes,
        height: first.height,
    })
}

/// The run with an argument behind its last operand.
pub fn with_argument(run: Run, place: At, operand: Operand) -> Result<Run, NoMemory>
    ensures made { IfOk result (λ all. all ≡ with_argument run place operand) }
    ensures height { IfOk result (λ all. all.height ≡ max run.height (operand_height operand)) }
{
    let Run {
        mut items,
        ops,
        takes: _,
        height,
    } = run;
    let next = plain(place, operand);
    items.add(FullPatItem::Atom(next.tree))?;
    Ok(Run {
        items,
        ops,
        takes: false,
        height: height.max(next.height),
    })
}

/// The run with an operator and the operand behind it.
pub fn with_operand(
    alloc: Global,
    run: Run,
    name: Name,
    fixity: Fixity,
    place: At,
    operand: Operand,
) -> Result<Run, NoMemory>
    ensures made { IfOk result (λ all. all ≡ with_operand run name fixity place operand) }
    ensures height { IfOk result (λ all. all.height ≡ max run.height (operand_height operand)) }
{
    let Run {
        mut items,
        ops,
        takes: _,
        height,
    } = run;
    let takes = takes(&operand);
    let next = plain(place, operand);
    items.add(FullPatItem::Operator(name, fixity))?;
    items.add(FullPatItem::Atom(next.tree))?;
    Ok(Run {
        items,
        ops: open_after(alloc, &ops, fixity)?,
        takes,
        height: height.max(next.height),
    })
}

/// An identifier as a pattern.
pub fn leaf_id(place: At, id: OpLong) -> Tall<FullPat>
    ensures { result ≡ leaf_id place id }
{
    Tall {
        tree: FullPat::Long(id, place),
        height: 1,
    }
}

/// The name that an identifier is, if it has no structures before it.
pub fn simple(id: &OpLong) -> Result<Option<OpName>, NoMemory>
    ensures { IfOk result (λ found. found ≡ simple id.now) }
{
    match id.long.parts.as_slice() {
        [text] => Ok(Some(OpName {
            op: id.op,
            name: Name {
                text: text.copy()?,
                line: id.long.line,
                col: id.long.col,
            },
        })),
        _ => Ok(None),
    }
}

/// No type.
pub fn no_type() -> Tall<Option<FullTy>>
    ensures { result ≡ no_type }
{
    Tall {
        tree: None,
        height: 0,
    }
}

/// A type that stands there.
pub fn some_type(found: Tall<FullTy>) -> Tall<Option<FullTy>>
    ensures { result ≡ some_type found }
{
    Tall {
        tree: Some(found.tree),
        height: found.height,
    }
}
