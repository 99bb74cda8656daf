//! What is awaited in a node behind what was read of it.

ghost use Rattle.std.specs.Prelude.{◌≡◌, ◌<◌, [], ◌∷◌, length, IfOk};
ghost use Rattle.node_bytes.specs.Shapes.{number};
ghost use Rattle.interface_reading.specs.Needs.{NoBad, HasNeeds, TakesPiece};
ghost use Rattle.interface_reading.specs.Weights.{needs_weight};

use crate::fault::RestoreFault;
use cm_base::{List, NoMemory, Text};
use cm_bytes::Reader;
use node_bytes::Item;
use std::alloc::Global;

/// What a list has: parts, parts by their names, or values.
#[derive(Clone, Copy, Debug)]
pub(crate) enum Listed {
    Parts,
    Named,
    Values,
}

/// What is awaited: so many bytes, a text, whose a type name is, a list, so many more items of one, or a part.
#[derive(Clone, Copy, Debug)]
pub(crate) enum Need {
    Raw(u32),
    Text,
    Owner,
    List(Listed),
    Items(Listed, u32),
    Part,
}

/// These needs, the first of them last.
fn needs_from(alloc: Global, needs: &[Need]) -> Result<List<Need>, RestoreFault>
    ensures ok { IfOk result (λ list. list ≡ needs.now) }
    ensures err { NoBad result }
{
    Ok(List::from_vec(Vec::from_slice(alloc, needs)?))
}

/// What is awaited behind a tag. It is refused exactly where no node has that tag.
pub(crate) fn needs_of(alloc: Global, tag: u8) -> Result<List<Need>, RestoreFault>
    ensures shape { HasNeeds tag result }
    ensures few { IfOk result (λ needs. needs_weight needs < 64) }
{
    match tag {
        1 => needs_from(alloc, &[Need::Raw(4)]),
        2 => needs_from(alloc, &[Need::List(Listed::Named)]),
        3 => needs_from(alloc, &[Need::Part, Need::Part]),
        4 => needs_from(
            alloc,
            &[
                Need::List(Listed::Parts),
                Need::Raw(1),
                Need::Raw(4),
                Need::Raw(4),
                Need::Owner,
            ],
        ),
        5 | 9 => needs_from(alloc, &[Need::Part, Need::Raw(4)]),
        6 => needs_from(alloc, &[Need::Part, Need::Text]),
        7 => needs_from(alloc, &[Need::List(Listed::Named), Need::Part]),
        8 => needs_from(
            alloc,
            &[
                Need::List(Listed::Values),
                Need::List(Listed::Named),
                Need::List(Listed::Named),
            ],
        ),
        10 => needs_from(alloc, &[Need::Part, Need::Raw(4), Need::Part, Need::Raw(4)]),
        11 => needs_from(alloc, &[Need::List(Listed::Named); 4]),
        _ => Err(RestoreFault::BadInterface),
    }
}

/// Reads so many bytes of a node.
pub(crate) fn read_piece<'a>(
    alloc: Global,
    n: u32,
    reader: &mut Reader<'a>,
    items: &mut List<Item>,
) -> Result<&'a [u8], RestoreFault>
    ensures { TakesPiece n result reader.old reader.new items.old items.new }
{
    let text = reader.raw(n as usize)?;
    items.add(Item::Piece(Text::from_bytes(alloc, text)?))?;
    Ok(text)
}

/// The number that four bytes are.
#[tactic(auto, unfolding(node_bytes::specs::Shapes::number))]
pub(crate) fn number_in(bytes: &[u8]) -> u32
    requires { length bytes.now ≡ 4 }
    ensures { result ≡ number bytes.now }
{
    u32::from_be_bytes([bytes[0], bytes[1], bytes[2], bytes[3]])
}

/// The one byte of a piece.
pub(crate) fn first_in(bytes: &[u8]) -> u8
    requires { length bytes.now ≡ 1 }
    ensures { bytes.now ≡ result ∷ [] }
{
    let [byte] = bytes else {
        return 0;
    };
    *byte
}
