//! Diagnostics at the place at which an environment is matched.

ghost use Rattle.std.specs.Prelude.{◌≡◌, [], ◌∷◌, ◌++◌, IfOk};
ghost use Rattle.std.specs.List.{join_with_byte};
ghost use Rattle.structure_matching.specs.Refusals.{Refuses};

use cm_base::{Diag, Fault, List, NoMemory, Place, Text};
use std::alloc::Global;

/// The text of a long name, with dots between its parts.
fn dotted(alloc: Global, path: &[Text], name: &Text) -> Result<Text, NoMemory>
    ensures { IfOk result (λ text. text ≡ join_with_byte 46 (path.now ++ name.now ∷ [])) }
{
    let mut bytes = Vec::new(alloc);
    for part in path {
        bytes.extend_from_slice(part.as_bytes())?;
        bytes.push(b'.')?;
    }
    bytes.extend_from_slice(name.as_bytes())?;
    Ok(Text::from_vec(bytes))
}

/// A diagnostic at a place that shows names.
fn diag(number: u8, at: &Place, names: List<Text>) -> Result<Diag, NoMemory>
    ensures { IfOk result (λ diag. diag ≡ record { number = number; at = at.now; names = names }) }
{
    let file = at.file.copy()?;
    let at = Place {
        file,
        line: at.line,
        col: at.col,
    };
    Ok(Diag { number, at, names })
}

/// A diagnostic without names.
pub(crate) fn refusal(alloc: Global, number: u8, at: &Place) -> Fault
    ensures { Refuses at.now number [] result }
{
    match diag(number, at, List::new(alloc)) {
        Ok(diag) => Fault::Diag(diag),
        Err(NoMemory) => Fault::NoMemory,
    }
}

/// A diagnostic that shows a text.
fn showing(alloc: Global, number: u8, at: &Place, text: Text) -> Result<Diag, NoMemory>
    ensures { IfOk result (λ diag. diag ≡ record { number = number; at = at.now; names = text ∷ [] }) }
{
    let mut names = List::new(alloc);
    names.add(text)?;
    diag(number, at, names)
}

/// A diagnostic that shows a long name: that of a part of the signature, from its root.
fn long_diag(
    alloc: Global,
    number: u8,
    at: &Place,
    path: &[Text],
    name: &Text,
) -> Result<Diag, NoMemory>
    ensures { IfOk result (λ diag. diag
        ≡ record { number = number; at = at.now; names = join_with_byte 46 (path.now ++ name.now ∷ []) ∷ [] }) }
{
    let text = dotted(alloc, path, name)?;
    showing(alloc, number, at, text)
}

/// The refusal by that diagnostic.
pub(crate) fn long_refusal(
    alloc: Global,
    number: u8,
    at: &Place,
    path: &[Text],
    name: &Text,
) -> Fault
    ensures { Refuses at.now number (join_with_byte 46 (path.now ++ name.now ∷ []) ∷ []) result }
{
    match long_diag(alloc, number, at, path, name) {
        Ok(diag) => Fault::Diag(diag),
        Err(NoMemory) => Fault::NoMemory,
    }
}
