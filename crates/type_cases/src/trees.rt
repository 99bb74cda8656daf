//! Cases `make`, `part` and `copy`: trees that are made of types one symbol after another, and what they are.

ghost use Rattle.std.specs.Prelude.{◌≡◌, ◌↔◌, length, false, IsTrue, IfOk, IfSome};
ghost use Rattle.semantic_objects.specs.Symbols.{same_text, AreApart, AreDiffering};
ghost use Rattle.semantic_objects.specs.Parts.{labels_of, IsPart};

use crate::naming::push_name;
use crate::words::{Word, push_symbol, read_word, take_last};
use case_files::{Part, push_parts};
use cm_base::{List, NoMemory, Text};
use semantic_objects::{TreeField, TreePart, TyId, TypeNode, TypeTree};
use std::alloc::Global;

/// Fields of these labels and types.
fn fields_of(
    alloc: Global,
    labels: List<Text>,
    parts: List<TypeTree>,
) -> Result<List<TreeField>, NoMemory> {
    let mut fields = List::new(alloc);
    let mut rest = labels;
    for part in parts.into_vec().into_iter().rev() {
        if let Some(label) = rest.pop() {
            fields.add(TreeField { label, part })?;
        }
    }
    Ok(fields)
}

/// Whether two labels are one.
fn are_one(this: &Text, that: &Text) -> bool
    ensures { IsTrue result ↔ (this.now ≡ that.now) }
{
    this.as_bytes() == that.as_bytes()
}

/// Whether two labels differ.
fn differ(this: &Text, that: &Text) -> bool
    ensures { IsTrue result → same_text this.now that.now ≡ false }
{
    !are_one(this, that)
}

/// Whether a label is none of those of fields.
fn is_apart(label: &Text, fields: &[TreeField]) -> bool
    ensures { IsTrue result → AreApart label.now (labels_of fields.now) }
{
    match fields {
        [first, rest @ ..] => differ(label, &first.label) && is_apart(label, rest),
        [] => true,
    }
}

/// Whether no two labels of fields are one. A record of a case has a handful of them.
fn all_differ(fields: &[TreeField]) -> bool
    ensures { IsTrue result → AreDiffering (labels_of fields.now) }
{
    match fields {
        [first, rest @ ..] => is_apart(&first.label, rest) && all_differ(rest),
        [] => true,
    }
}

/// A record type of labels over the last types, whose fields stand in another order than they are written in.
fn record_of(
    alloc: Global,
    open: &mut Vec<TypeTree>,
    labels: List<Text>,
) -> Result<Option<TreePart>, NoMemory>
    ensures { IfOk result (λ found. IfSome found IsPart) }
{
    let Some(parts) = take_last(open, labels.len())? else {
        return Ok(None);
    };
    let fields = fields_of(alloc, labels, parts)?;
    if !all_differ(fields.as_slice()) {
        return Ok(None);
    }
    Ok(Some(TreePart::Record(fields)))
}

/// A function type between the last two types.
fn arrow_of(open: &mut Vec<TypeTree>) -> Option<TreePart>
    ensures { IfSome result IsPart }
{
    let to = open.pop()?;
    let from = open.pop()?;
    Some(TreePart::Arrow(from, to))
}

/// What a word makes of the last types; none where there are too few.
fn part_of(
    alloc: Global,
    open: &mut Vec<TypeTree>,
    word: Word,
) -> Result<Option<TreePart>, NoMemory>
    ensures { IfOk result (λ found. IfSome found IsPart) }
{
    match word {
        Word::Free(number) => Ok(Some(TreePart::Free(TyId::Variable(number as usize)))),
        Word::Bound(place) => Ok(Some(TreePart::Bound(place))),
        Word::Arrow => Ok(arrow_of(open)),
        Word::Record(labels) => record_of(alloc, open, labels),
        Word::Name(name) => match take_last(open, name.arity as usize)? {
            Some(args) => Ok(Some(TreePart::Named(name, args))),
            None => Ok(None),
        },
    }
}

/// Makes a tree of a word and the last types. None where they make none.
fn make_word(alloc: Global, open: &mut Vec<TypeTree>, text: &[u8]) -> Result<Option<()>, NoMemory> {
    let Some(word) = read_word(alloc, text)? else {
        return Ok(None);
    };
    let Some(part) = part_of(alloc, open, word)? else {
        return Ok(None);
    };
    open.push(TypeTree::make(alloc, part)?)?;
    Ok(Some(()))
}

/// The tree that the words of a type make, if they make one.
pub fn read_tree(alloc: Global, text: &[u8]) -> Result<Option<TypeTree>, NoMemory> {
    let mut open = Vec::new(alloc);
    for word in text.split(|byte| *byte == b' ') {
        if make_word(alloc, &mut open, word)?.is_none() {
            return Ok(None);
        }
    }
    let tree = open.pop();
    Ok(if open.is_empty() { tree } else { None })
}

/// The words of a node, from those of the nodes before it.
fn node_words(alloc: Global, before: &List<Text>, node: &TypeNode) -> Result<Text, NoMemory> {
    let mut out = Vec::new(alloc);
    match node {
        TypeNode::Bound(place) => {
            push_parts(
                alloc,
                &mut out,
                &[Part::Text(b"%"), Part::Number(u64::from(*place))],
            )?
        }
        TypeNode::Free(number) => {
            push_parts(
                alloc,
                &mut out,
                &[Part::Text(b"'"), Part::Number(*number as u64)],
            )?
        }
        TypeNode::Made(symbol, places) => {
            push_places(alloc, &mut out, before, places)?;
            push_symbol(alloc, &mut out, symbol)?
        }
    }
    Ok(Text::from_vec(out))
}

/// Adds the words of the nodes at some places, each with a blank behind it.
fn push_places(
    alloc: Global,
    out: &mut Vec<u8>,
    before: &List<Text>,
    places: &List<usize>,
) -> Result<(), NoMemory> {
    for place in places.as_slice() {
        match before.get(*place) {
            Some(words) => push_parts(
                alloc,
                out,
                &[Part::Text(words.as_bytes()), Part::Text(b" ")],
            )?,
            None => push_parts(alloc, out, &[Part::Text(b"? ")])?,
        }
    }
    Ok(())
}

/// Adds the words of a tree, as its nodes unfold.
pub fn push_tree(alloc: Global, out: &mut Vec<u8>, tree: &TypeTree) -> Result<(), NoMemory> {
    let mut before = List::new(alloc);
    for node in tree.nodes() {
        let words = node_words(alloc, &before, node)?;
        before.add(words)?;
    }
    match before.pop() {
        Some(words) => push_parts(alloc, out, &[Part::Text(words.as_bytes())]),
        None => Ok(()),
    }
}

/// The words of a tree.
fn words_of(alloc: Global, tree: &TypeTree) -> Result<Vec<u8>, NoMemory> {
    let mut out = Vec::new(alloc);
    push_tree(alloc, &mut out, tree)?;
    Ok(out)
}

/// The tree that is made of a type.
pub fn made(alloc: Global, text: &[u8]) -> Result<Option<Vec<u8>>, NoMemory> {
    match read_tree(alloc, text)? {
        Some(tree) => Ok(Some(words_of(alloc, &tree)?)),
        None => Ok(None),
    }
}

/// The copy of the tree that is made of a type.
pub fn copied(alloc: Global, text: &[u8]) -> Result<Option<Vec<u8>>, NoMemory> {
    match read_tree(alloc, text)? {
        Some(tree) => Ok(Some(words_of(alloc, &tree.copy(alloc)?)?)),
        None => Ok(None),
    }
}

/// Adds a field: its label and its tree.
fn push_field(alloc: Global, out: &mut Vec<u8>, field: &TreeField) -> Result<(), NoMemory> {
    push_parts(
        alloc,
        out,
        &[
            Part::Text(b"; "),
            Part::Text(field.label.as_bytes()),
            Part::Text(b" = "),
        ],
    )?;
    push_tree(alloc, out, &field.part)
}

/// Adds what a tree is, one level of it.
fn push_part(alloc: Global, out: &mut Vec<u8>, part: &TreePart) -> Result<(), NoMemory> {
    match part {
        TreePart::Bound(place) => {
            push_parts(
                alloc,
                out,
                &[Part::Text(b"bound "), Part::Number(u64::from(*place))],
            )
        }
        TreePart::Free(TyId::Variable(number)) => {
            push_parts(
                alloc,
                out,
                &[Part::Text(b"free "), Part::Number(*number as u64)],
            )
        }
        TreePart::Free(TyId::Made(_)) => push_parts(alloc, out, &[Part::Text(b"made")]),
        TreePart::Record(fields) => {
            push_parts(alloc, out, &[Part::Text(b"record")])?;
            for field in fields.as_slice() {
                push_field(alloc, out, field)?;
            }
            Ok(())
        }
        TreePart::Arrow(from, to) => push_between(alloc, out, from, to),
        TreePart::Named(name, args) => {
            push_parts(alloc, out, &[Part::Text(b"named ")])?;
            push_name(alloc, out, name)?;
            push_args(alloc, out, args)
        }
    }
}

/// Adds the two trees of an arrow.
fn push_between(
    alloc: Global,
    out: &mut Vec<u8>,
    from: &TypeTree,
    to: &TypeTree,
) -> Result<(), NoMemory> {
    push_parts(alloc, out, &[Part::Text(b"from ")])?;
    push_tree(alloc, out, from)?;
    push_parts(alloc, out, &[Part::Text(b" to ")])?;
    push_tree(alloc, out, to)
}

/// Adds arguments.
fn push_args(alloc: Global, out: &mut Vec<u8>, args: &List<TypeTree>) -> Result<(), NoMemory> {
    for arg in args.as_slice() {
        push_parts(alloc, out, &[Part::Text(b"; ")])?;
        push_tree(alloc, out, arg)?;
    }
    Ok(())
}

/// What the tree that is made of a type is, one level of it.
pub fn part(alloc: Global, text: &[u8]) -> Result<Option<Vec<u8>>, NoMemory> {
    let Some(tree) = read_tree(alloc, text)? else {
        return Ok(None);
    };
    let part = tree.part(alloc)?;
    let mut out = Vec::new(alloc);
    push_part(alloc, &mut out, &part)?;
    Ok(Some(out))
}
