//! Diagnostics of the unit that is elaborated.

ghost use Rattle.std.specs.Prelude.{◌≡◌, [], ◌∷◌, IfOk};
ghost use Rattle.std.specs.List.{join_with_byte};
ghost use Rattle.static_semantics.specs.Inferring.{name_at, long_at};
ghost use Rattle.type_phrases.specs.Inferred.{Refuses};

use cm_base::{Diag, Fault, List, NoMemory, Place, Text};
use sml_modules::EnvGraph;
use sml_trees::{At, LongName, Name};
use std::alloc::Global;

/// A diagnostic at a place of the unit that the graph is in, or want of memory.
pub fn refusal(g: &EnvGraph, number: u8, at: At, names: List<Text>) -> Fault
    ensures { Refuses g.now number at names result }
{
    match g.home() {
        Ok(file) => Fault::Diag(Diag {
            number,
            at: Place {
                file,
                line: at.line,
                col: at.col,
            },
            names,
        }),
        Err(NoMemory) => Fault::NoMemory,
    }
}

/// A diagnostic that shows a text.
pub fn refusal_of(alloc: Global, g: &EnvGraph, number: u8, at: At, text: Text) -> Fault
    ensures { Refuses g.now number at (text ∷ []) result }
{
    let mut names = List::new(alloc);
    match names.add(text) {
        Ok(()) => refusal(g, number, at, names),
        Err(NoMemory) => Fault::NoMemory,
    }
}

/// The text of a long name, with dots between its parts.
fn dotted(alloc: Global, parts: &[Text]) -> Result<Text, NoMemory>
    ensures { IfOk result (λ text. text ≡ join_with_byte 46 parts.now) }
{
    let Some((first, rest)) = parts.split_first() else {
        return Text::from_bytes(alloc, b"");
    };
    let mut bytes = Vec::from_slice(alloc, first.as_bytes())?;
    for part in rest {
        bytes.push(b'.')?;
        bytes.extend_from_slice(part.as_bytes())?;
    }
    Ok(Text::from_vec(bytes))
}

/// 30 at a long name that stands for nothing, with its text.
pub fn unknown(alloc: Global, g: &EnvGraph, long: &LongName) -> Fault
    ensures { Refuses g.now 30 (long_at long.now) (join_with_byte 46 long.now.parts ∷ []) result }
{
    let at = At {
        line: long.line,
        col: long.col,
    };
    match dotted(alloc, long.parts.as_slice()) {
        Ok(text) => refusal_of(alloc, g, 30, at, text),
        Err(NoMemory) => Fault::NoMemory,
    }
}

/// Where a name stands.
pub fn place_of(name: &Name) -> At
    ensures { result ≡ name_at name.now }
{
    At {
        line: name.line,
        col: name.col,
    }
}

/// 30 at a name that stands for nothing.
pub fn unknown_name(alloc: Global, g: &EnvGraph, name: &Name) -> Fault
    ensures { Refuses g.now 30 (name_at name.now) (name.now.text ∷ []) result }
{
    match name.text.copy() {
        Ok(text) => refusal_of(alloc, g, 30, place_of(name), text),
        Err(NoMemory) => Fault::NoMemory,
    }
}
