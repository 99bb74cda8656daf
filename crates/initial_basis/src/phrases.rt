//! The types that words write.
//!
//! Words that write no type are refused as want of memory is; the table has none.

ghost use Rattle.std.specs.Prelude.{◌≡◌, ◌++◌, [], ◌∷◌, IfOk, OnOk, fold};
ghost use Rattle.std.specs.List.{list_any};
ghost use Rattle.semantic_objects.specs.Trees.{Tree, BindsBelow};
ghost use Rattle.semantic_objects.specs.Parts.{labels_of, parts_of, record_tree, arrow_tree};
ghost use Rattle.semantic_objects.specs.Symbols.{AreRising};
ghost use Rattle.initial_basis.specs.Phrases.{named, is_variable, is_equality_variable, is_arrow, is_star, unit_tree};
ghost use Rattle.initial_basis.specs.Phrases.{atom, applied, tuple, product, type_of, marks_of, scheme_of};

use crate::type_names::{NamedName, known};
use crate::words::{is_word, parts_at};
use cm_base::{List, NoMemory, Text};
use semantic_objects::{Scheme, TreeField, TreePart, TypeTree};
use std::alloc::Global;

/// Whether a word is the type variable that ranges over equality types.
fn is_equality_variable(word: &Text) -> bool
    ensures { result ≡ is_equality_variable word.now }
{
    is_word(word, b"''a")
}

/// Whether a word is a type variable.
fn is_variable(word: &Text) -> bool
    ensures { result ≡ is_variable word.now }
{
    is_word(word, b"'a") || is_equality_variable(word)
}

/// A type name over arguments.
fn named(
    alloc: Global,
    names: &[NamedName],
    word: &Text,
    args: List<TypeTree>,
) -> Result<TypeTree, NoMemory>
    ensures { IfOk result (λ tree. tree ≡ named names.now word.now args) }
{
    match known(names, word) {
        Some(name) => {
            if args.len() == name.arity as usize {
                TypeTree::make(alloc, TreePart::Named(name.copy()?, args))
            } else {
                Err(NoMemory)
            }
        }
        None => Err(NoMemory),
    }
}

/// A type name over one argument.
fn named_over(
    alloc: Global,
    names: &[NamedName],
    word: &Text,
    arg: TypeTree,
) -> Result<TypeTree, NoMemory>
    ensures { IfOk result (λ tree. tree ≡ named names.now word.now (arg ∷ [])) }
{
    let mut args = List::new(alloc);
    args.add(arg)?;
    named(alloc, names, word, args)
}

/// The empty record.
pub(crate) fn unit_tree(alloc: Global) -> Result<TypeTree, NoMemory>
    ensures { IfOk result (λ tree. tree ≡ unit_tree) }
{
    record_of(alloc, List::new(alloc))
}

/// The record type of fields in the order of their labels.
fn record_of(alloc: Global, fields: List<TreeField>) -> Result<TypeTree, NoMemory>
    requires { AreRising (labels_of fields) }
    ensures { IfOk result (λ tree. tree ≡ record_tree fields) }
{
    TypeTree::make(alloc, TreePart::Record(fields))
}

/// A type variable, `unit`, or a type name without arguments.
fn atom(alloc: Global, names: &[NamedName], word: &Text) -> Result<TypeTree, NoMemory>
    ensures { IfOk result (λ tree. tree ≡ atom names.now word.now) }
{
    if is_variable(word) {
        TypeTree::make(alloc, TreePart::Bound(0))
    } else if is_word(word, b"unit") {
        unit_tree(alloc)
    } else {
        named(alloc, names, word, List::new(alloc))
    }
}

/// A type behind which type names of one argument stand.
pub(crate) fn applied(
    alloc: Global,
    names: &[NamedName],
    words: &[Text],
) -> Result<TypeTree, NoMemory>
    ensures { IfOk result (λ tree. tree ≡ applied names.now words.now) }
{
    match words {
        [first, rest @ ..] => {
            let tree = atom(alloc, names, first)?;
            applied_after(alloc, names, tree, rest)
        }
        [] => Err(NoMemory),
    }
}

/// A type with type names of one argument behind it.
fn applied_after(
    alloc: Global,
    names: &[NamedName],
    tree: TypeTree,
    words: &[Text],
) -> Result<TypeTree, NoMemory>
    ensures { IfOk result (λ whole. whole ≡ fold (λ tree name. named names.now name (tree ∷ [])) tree words.now) }
{
    let mut whole = tree;
    for word in words {
        whole = named_over(alloc, names, word, whole)?;
    }
    Ok(whole)
}

/// A field of a tuple type.
fn add_field(
    alloc: Global,
    fields: &mut List<TreeField>,
    label: &[u8],
    part: TypeTree,
) -> Result<(), NoMemory>
    ensures { OnOk result (fields.new ≡ fields.old ++ record { label = label.now; part = part } ∷ []) }
{
    let label = Text::from_bytes(alloc, label)?;
    fields.add(TreeField { label, part })
}

/// The type of pairs.
fn pair(alloc: Global, one: TypeTree, two: TypeTree) -> Result<TypeTree, NoMemory>
    ensures { IfOk result (λ tree. tree ≡ tuple (one ∷ two ∷ [])) }
{
    let mut fields = List::new(alloc);
    add_field(alloc, &mut fields, b"1", one)?;
    add_field(alloc, &mut fields, b"2", two)?;
    record_of(alloc, fields)
}

/// The type of triples.
fn triple(
    alloc: Global,
    one: TypeTree,
    two: TypeTree,
    three: TypeTree,
) -> Result<TypeTree, NoMemory>
    ensures { IfOk result (λ tree. tree ≡ tuple (one ∷ two ∷ three ∷ [])) }
{
    let mut fields = List::new(alloc);
    add_field(alloc, &mut fields, b"1", one)?;
    add_field(alloc, &mut fields, b"2", two)?;
    add_field(alloc, &mut fields, b"3", three)?;
    record_of(alloc, fields)
}

/// A tuple type of up to three parts.
fn tuple(alloc: Global, parts: List<TypeTree>) -> Result<TypeTree, NoMemory>
    ensures { IfOk result (λ tree. tree ≡ tuple parts) }
{
    let mut parts = parts;
    match (parts.pop(), parts.pop(), parts.pop()) {
        (Some(one), None, None) => Ok(one),
        (Some(two), Some(one), None) => pair(alloc, one, two),
        (Some(three), Some(two), Some(one)) if parts.is_empty() => triple(alloc, one, two, three),
        _ => Err(NoMemory),
    }
}

/// Types with `*` between them.
fn product(alloc: Global, names: &[NamedName], words: &[Text]) -> Result<TypeTree, NoMemory>
    ensures { IfOk result (λ tree. tree ≡ product names.now words.now) }
{
    let mut parts = List::new(alloc);
    for part in words.split(|word| is_word(word, b"*")) {
        parts.add(applied(alloc, names, part)?)?;
    }
    tuple(alloc, parts)
}

/// Whether words write an arrow.
fn has_arrow(words: &[Text]) -> bool
    ensures { result ≡ list_any is_arrow words.now }
{
    words.iter().any(|word| is_word(word, b"->"))
}

/// The type that words write.
fn type_of(alloc: Global, names: &[NamedName], words: &[Text]) -> Result<TypeTree, NoMemory>
    ensures { IfOk result (λ tree. tree ≡ type_of names.now words.now) }
{
    if has_arrow(words) {
        let (from, to) = parts_at(words, b"->");
        let from = product(alloc, names, from)?;
        let to = product(alloc, names, to)?;
        TypeTree::make(alloc, TreePart::Arrow(from, to))
    } else {
        product(alloc, names, words)
    }
}

/// Whether words write the variable that ranges over equality types.
fn has_equality_variable(words: &[Text]) -> bool
    ensures { result ≡ list_any is_equality_variable words.now }
{
    words.iter().any(|word| is_equality_variable(word))
}

/// Whether words write a variable.
fn has_variable(words: &[Text]) -> bool
    ensures { result ≡ list_any is_variable words.now }
{
    words.iter().any(|word| is_variable(word))
}

/// A mark alone.
fn one_mark(alloc: Global, mark: bool) -> Result<List<bool>, NoMemory>
    ensures { IfOk result (λ marks. marks ≡ mark ∷ []) }
{
    let mut marks = List::new(alloc);
    marks.add(mark)?;
    Ok(marks)
}

/// The marks of the variables that words write.
fn marks_of(alloc: Global, words: &[Text]) -> Result<List<bool>, NoMemory>
    ensures { IfOk result (λ marks. marks ≡ marks_of words.now) }
{
    if has_equality_variable(words) {
        one_mark(alloc, true)
    } else if has_variable(words) {
        one_mark(alloc, false)
    } else {
        Ok(List::new(alloc))
    }
}

/// The type that words write, closed over its variable.
pub(crate) fn scheme_of(
    alloc: Global,
    names: &[NamedName],
    words: &[Text],
) -> Result<Scheme, NoMemory>
    ensures { IfOk result (λ scheme. scheme ≡ scheme_of names.now words.now) }
{
    let marks = marks_of(alloc, words)?;
    let body = type_of(alloc, names, words)?;
    Scheme::make(marks, body)
}
