//! Types and schemes.

use crate::names::{are_places, push_name};
use crate::numbers::NameNumbers;
use crate::piece::{Piece, Printed, Tightness, leaf, push_bytes, push_part, push_whole};
use crate::variables::push_named;
use cm_base::{List, NoMemory, Text};
use semantic_objects::{Scheme, Symbol, TyName, TypeFn, TypeNode, TypeTree};
use std::alloc::Global;

/// Adds what stands at some places, with bytes between two parts.
fn push_joined(
    pieces: &mut List<Piece>,
    made: &List<Printed>,
    places: &[usize],
    between: &[u8],
    whole: Tightness,
) -> Result<(), NoMemory> {
    let mut is_first = true;
    for place in places {
        if !is_first {
            push_bytes(pieces, between)?;
        }
        is_first = false;
        if let Some(part) = made.get(*place) {
            push_part(pieces, part, whole)?;
        }
    }
    Ok(())
}

/// An arrow: the right side needs no parentheses.
fn arrow(alloc: Global, made: &List<Printed>, places: &[usize]) -> Result<Printed, NoMemory> {
    let mut pieces = List::new(alloc);
    if let [from, to] = places {
        if let Some(part) = made.get(*from) {
            push_part(&mut pieces, part, Tightness::Arrow)?;
        }
        push_bytes(&mut pieces, b" -> ")?;
        if let Some(part) = made.get(*to) {
            push_whole(&mut pieces, part)?;
        }
    }
    Ok(Printed {
        pieces,
        tightness: Tightness::Arrow,
    })
}

/// A record that is no tuple.
fn fields(
    alloc: Global,
    made: &List<Printed>,
    labels: &List<Text>,
    places: &[usize],
) -> Result<Printed, NoMemory> {
    let mut pieces = List::new(alloc);
    push_bytes(&mut pieces, b"{")?;
    let mut rest = places;
    for label in labels.as_slice() {
        if rest.len() < places.len() {
            push_bytes(&mut pieces, b", ")?;
        }
        push_bytes(&mut pieces, label.as_bytes())?;
        push_bytes(&mut pieces, b" : ")?;
        if let [place, more @ ..] = rest {
            if let Some(part) = made.get(*place) {
                push_whole(&mut pieces, part)?;
            }
            rest = more;
        }
    }
    push_bytes(&mut pieces, b"}")?;
    Ok(Printed {
        pieces,
        tightness: Tightness::Applied,
    })
}

/// A record: `unit` where it is empty, a tuple where its labels are places.
fn record(
    alloc: Global,
    made: &List<Printed>,
    labels: &List<Text>,
    places: &[usize],
) -> Result<Printed, NoMemory> {
    let mut pieces = List::new(alloc);
    if labels.is_empty() {
        push_bytes(&mut pieces, b"unit")?;
        Ok(Printed {
            pieces,
            tightness: Tightness::Applied,
        })
    } else if are_places(alloc, labels)? {
        push_joined(&mut pieces, made, places, b" * ", Tightness::Tuple)?;
        Ok(Printed {
            pieces,
            tightness: Tightness::Tuple,
        })
    } else {
        fields(alloc, made, labels, places)
    }
}

/// Adds the arguments of a type name.
fn push_args(
    pieces: &mut List<Piece>,
    made: &List<Printed>,
    places: &[usize],
) -> Result<(), NoMemory> {
    match places {
        [] => Ok(()),
        [_one] => {
            push_joined(pieces, made, places, b"", Tightness::Applied)?;
            push_bytes(pieces, b" ")
        }
        _ => {
            push_bytes(pieces, b"(")?;
            push_joined(pieces, made, places, b", ", Tightness::Arrow)?;
            push_bytes(pieces, b") ")
        }
    }
}

/// A type name behind its arguments.
fn named(
    alloc: Global,
    made: &List<Printed>,
    name: &TyName,
    places: &[usize],
) -> Result<Printed, NoMemory> {
    let mut pieces = List::new(alloc);
    push_args(&mut pieces, made, places)?;
    push_name(alloc, &mut pieces, name)?;
    Ok(Printed {
        pieces,
        tightness: Tightness::Applied,
    })
}

/// A node, from those before it.
fn node(alloc: Global, made: &List<Printed>, node: &TypeNode) -> Result<Printed, NoMemory> {
    match node {
        TypeNode::Bound(i) => leaf(alloc, Piece::Bound(*i)),
        TypeNode::Free(n) => leaf(alloc, Piece::Free(*n)),
        TypeNode::Made(symbol, places) => match symbol {
            Symbol::Arrow => arrow(alloc, made, places.as_slice()),
            Symbol::Record(labels) => record(alloc, made, labels, places.as_slice()),
            Symbol::Name(name) => named(alloc, made, name, places.as_slice()),
        },
    }
}

/// The pieces of a type.
fn pieces_of(alloc: Global, tree: &TypeTree) -> Result<List<Piece>, NoMemory> {
    let mut made = List::new(alloc);
    for one in tree.nodes() {
        let printed = node(alloc, &made, one)?;
        made.add(printed)?;
    }
    match made.pop() {
        Some(printed) => {
            let Printed { pieces, .. } = printed;
            Ok(pieces)
        }
        None => Err(NoMemory),
    }
}

/// Adds a type. Its variables are printed as those of a scheme without marks.
pub fn push_type(alloc: Global, out: &mut Vec<u8>, tree: &TypeTree) -> Result<(), NoMemory> {
    let pieces = pieces_of(alloc, tree)?;
    let mut numbers = NameNumbers::as_made(alloc);
    push_named(alloc, out, &mut numbers, &pieces, 0, &[])
}

/// Adds a scheme: an equality variable has two apostrophes.
pub fn push_scheme(alloc: Global, out: &mut Vec<u8>, scheme: &Scheme) -> Result<(), NoMemory> {
    let mut numbers = NameNumbers::as_made(alloc);
    push_numbered_scheme(alloc, out, &mut numbers, scheme)
}

/// Adds a scheme, with type names by these numbers.
pub fn push_numbered_scheme(
    alloc: Global,
    out: &mut Vec<u8>,
    numbers: &mut NameNumbers,
    scheme: &Scheme,
) -> Result<(), NoMemory> {
    let pieces = pieces_of(alloc, scheme.body())?;
    push_named(alloc, out, numbers, &pieces, 0, scheme.marks())
}

/// Adds the type of a type function, with type names by these numbers. Its variables have the names of its arguments,
/// as `push_arguments` writes them.
pub fn push_numbered_function(
    alloc: Global,
    out: &mut Vec<u8>,
    numbers: &mut NameNumbers,
    function: &TypeFn,
) -> Result<(), NoMemory> {
    let pieces = pieces_of(alloc, &function.body)?;
    push_named(alloc, out, numbers, &pieces, function.arity, &[])
}
