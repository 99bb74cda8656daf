//! Names that derived forms need.

ghost use Rattle.std.specs.Prelude.{◌≡◌, IfOk};
ghost use Rattle.bare_forms.specs.Types.{label_of};
ghost use Rattle.bare_forms.specs.Patterns.{at_name, long_name, long_at};

use cm_base::{List, NoMemory, Text};
use sml_trees::held::both;
use sml_trees::{At, LongName, Name};
use std::alloc::Global;

/// The label of a tuple's part, which is its number from 1.
pub fn label(alloc: Global, at: At, number: usize) -> Result<Name, NoMemory>
    ensures { IfOk result (λ name. name ≡ label_of at number) }
{
    let digits = number.to_string(alloc)?;
    Ok(Name {
        text: Text::from_bytes(alloc, digits.as_bytes())?,
        line: at.line,
        col: at.col,
    })
}

/// The labels of a pair's parts.
pub fn pair_labels(alloc: Global, at: At) -> Result<(Name, Name), NoMemory>
    ensures first { IfOk result (λ labels. labels.0 ≡ label_of at 1) }
    ensures second { IfOk result (λ labels. labels.1 ≡ label_of at 2) }
{
    let first = label(alloc, at, 1)?;
    both(first, label(alloc, at, 2))
}

/// Where a name stands.
pub fn place(name: &Name) -> At
    ensures { result ≡ at_name name.now }
{
    At {
        line: name.line,
        col: name.col,
    }
}

/// A name as a long identifier.
pub fn long_of_name(alloc: Global, name: &Name) -> Result<LongName, NoMemory>
    ensures { IfOk result (λ long. long ≡ long_name name.now) }
{
    let mut parts = List::new(alloc);
    parts.add(name.text.copy()?)?;
    Ok(LongName {
        parts,
        line: name.line,
        col: name.col,
    })
}

/// A long identifier of one part that isn't written.
pub fn long_of_text(alloc: Global, at: At, text: &[u8]) -> Result<LongName, NoMemory>
    ensures { IfOk result (λ long. long ≡ long_at at text.now) }
{
    let mut parts = List::new(alloc);
    parts.add(Text::from_bytes(alloc, text)?)?;
    Ok(LongName {
        parts,
        line: at.line,
        col: at.col,
    })
}

/// The same name again.
pub fn copy_name(name: &Name) -> Result<Name, NoMemory>
    ensures { IfOk result (λ copy. copy ≡ name.now) }
{
    Ok(Name {
        text: name.text.copy()?,
        line: name.line,
        col: name.col,
    })
}

/// The same texts again.
fn copy_texts(alloc: Global, texts: &[Text]) -> Result<List<Text>, NoMemory>
    ensures { IfOk result (λ copy. copy ≡ texts.now) }
{
    let mut copy = List::new(alloc);
    for text in texts {
        copy.add(text.copy()?)?;
    }
    Ok(copy)
}

/// The same long identifier again.
pub fn copy_long(alloc: Global, long: &LongName) -> Result<LongName, NoMemory>
    ensures { IfOk result (λ copy. copy ≡ long.now) }
{
    Ok(LongName {
        parts: copy_texts(alloc, long.parts.as_slice())?,
        line: long.line,
        col: long.col,
    })
}

/// The same names again.
pub fn copy_names(alloc: Global, names: &[Name]) -> Result<List<Name>, NoMemory>
    ensures { IfOk result (λ copy. copy ≡ names.now) }
{
    let mut copy = List::new(alloc);
    for name in names {
        copy.add(copy_name(name)?)?;
    }
    Ok(copy)
}

/// The same long identifiers again.
pub fn copy_longs(alloc: Global, longs: &[LongName]) -> Result<List<LongName>, NoMemory>
    ensures { IfOk result (λ copy. copy ≡ longs.now) }
{
    let mut copy = List::new(alloc);
    for long in longs {
        copy.add(copy_long(alloc, long)?)?;
    }
    Ok(copy)
}
