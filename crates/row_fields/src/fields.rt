//! Fields at the front of some items.

ghost use Rattle.std.specs.Prelude.{◌≡◌, ◌≢◌, [], ◌∷◌, ◌↔◌, IsTrue, length, MatchOption};
ghost use Rattle.node_bytes.specs.Nodes.{Content};
ghost use Rattle.node_bytes.specs.Shapes.{with_byte, with_number, with_text};
ghost use Rattle.interface_format.specs.Rules.{IsNumber};
ghost use Rattle.row_fields.specs.Taking.{Takes, itself, bytes_of, part_of, IsAny, IsText, with_flag, with_status, SpellNumber};

use node_bytes::Item;
use semantic_objects::VidStatus;
use std::marker::Model;

/// A place in the items of a node, which contracts see as the items from there on. Where a call finds no such field,
/// the items from there on are of no use.
#[derive(Debug, Drop)]
pub struct Fields<'a> {
    rest: &'a [Item],
}

impl<'a> Model for Fields<'a> {
    ghost use Rattle.std.specs.Prelude.{List};
    ghost use Rattle.node_bytes.specs.declared.table.Item.{Item};

    ghost Value = { List Item };

    ghost view = { λ f. f.rest.now };
}

impl<'a> Fields<'a> {
    /// At the front of the items.
    pub fn new(items: &'a [Item]) -> Fields<'a>
        ensures { result ≡ items.now }
    {
        Fields { rest: items }
    }

    /// Takes a piece.
    fn piece(&mut self) -> Option<&'a [u8]>
        ensures { Takes bytes_of IsAny Content.piece result self.old self.new }
    {
        let (first, rest) = self.rest.split_first()?;
        match first {
            Item::Piece(text) => {
                self.rest = rest;
                Some(text.as_bytes())
            }
            Item::Part(_) => None,
        }
    }

    /// Takes the place of a part.
    pub fn part(&mut self) -> Option<usize>
        ensures { Takes part_of IsAny Content.part result self.old self.new }
    {
        let (first, rest) = self.rest.split_first()?;
        match first {
            Item::Piece(_) => None,
            Item::Part(place) => {
                self.rest = rest;
                Some(*place)
            }
        }
    }

    /// Takes a number.
    #[tactic(auto, using(crate::proofs::Numbers::number_taken))]
    pub fn number(&mut self) -> Option<u32>
        ensures { Takes itself IsNumber with_number result self.old self.new }
    {
        let text = self.piece()?;
        number_in(text)
    }

    /// Takes a byte.
    pub(crate) fn byte(&mut self) -> Option<u8>
        ensures { Takes itself IsAny with_byte result self.old self.new }
    {
        let text = self.piece()?;
        byte_in(text)
    }

    /// Takes a text behind its length.
    #[tactic(auto, using(crate::proofs::Numbers::text_never))]
    pub fn text(&mut self) -> Option<&'a [u8]>
        ensures { Takes bytes_of IsText with_text result self.old self.new }
    {
        let len = self.number()?;
        let text = self.piece()?;
        if text.len() != len as usize {
            return None;
        }
        Some(text)
    }

    /// Takes a byte that says whether something holds.
    pub fn flag(&mut self) -> Option<bool>
        ensures { Takes itself IsAny with_flag result self.old self.new }
    {
        match self.byte()? {
            0 => Some(false),
            1 => Some(true),
            _ => None,
        }
    }

    /// Takes the status of a value.
    pub fn status(&mut self) -> Option<VidStatus>
        ensures { Takes itself IsAny with_status result self.old self.new }
    {
        match self.byte()? {
            0 => Some(VidStatus::Variable),
            1 => Some(VidStatus::Constructor),
            2 => Some(VidStatus::Exception),
            _ => None,
        }
    }

    /// Whether nothing is left.
    pub fn at_end(&self) -> bool
        ensures { IsTrue result ↔ (self.now ≡ []) }
    {
        self.rest.is_empty()
    }
}

/// The number that four bytes are.
#[tactic(auto, using(crate::proofs::Numbers::four_are))]
fn number_in(bytes: &[u8]) -> Option<u32>
    ensures { SpellNumber bytes.now result }
{
    if bytes.len() != 4 {
        return None;
    }
    Some(u32::from_be_bytes([bytes[0], bytes[1], bytes[2], bytes[3]]))
}

/// The one byte that there is.
fn byte_in(bytes: &[u8]) -> Option<u8>
    ensures { MatchOption result (length bytes.now ≢ 1) (λ b. bytes.now ≡ b ∷ []) }
{
    if bytes.len() != 1 {
        return None;
    }
    Some(bytes[0])
}
