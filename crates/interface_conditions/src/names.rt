//! What is asked of names and labels.

ghost use Rattle.std.specs.Prelude.{◌≡◌, ◌↔◌, All, IsTrue};
ghost use Rattle.std.specs.List.{list_all};
ghost use Rattle.std.specs.Ordering.{nat_cmp};
ghost use Rattle.std.specs.declared.cmp.Ordering.TheVariants.{Less};
ghost use Rattle.std.specs.Cmp.Lexicographic.{slice_cmp};
ghost use Rattle.semantic_objects.specs.Symbols.{AreRising};
ghost use Rattle.interface_format.specs.Rules.{IsName, AreNames};
ghost use Rattle.interface_conditions.specs.Names.{is_graph};

use cm_base::Text;
use std::cmp::Ordering;

/// Whether a byte may stand in a name: those from 33 to 126 may.
fn is_graph(byte: u8) -> bool
    ensures { result ≡ is_graph byte }
{
    32 < byte && byte < 127
}

/// Whether each byte may stand in a name.
fn are_graph(bytes: &[u8]) -> bool
    ensures { result ≡ list_all is_graph bytes.now }
{
    bytes.iter().all(|byte| is_graph(*byte))
}

/// Whether a text can be a name or a label in an interface: it has 1 to 255 bytes from 33 to 126.
#[tactic(auto, using(crate::proofs::Named::is_named, crate::proofs::Named::named_is))]
pub fn is_name(text: &[u8]) -> bool
    ensures { IsTrue result ↔ IsName text.now }
{
    if text.len() < 1 || 255 < text.len() {
        return false;
    }
    are_graph(text)
}

/// Whether a text stands before another in byte order.
fn is_before(a: &Text, b: &Text) -> bool
    ensures { IsTrue result ↔ (slice_cmp nat_cmp a.now b.now ≡ Less) }
{
    a.cmp(b) == Ordering::Less
}

/// Whether texts stand in strictly rising byte order.
fn are_rising(names: &[Text]) -> bool
    ensures { IsTrue result ↔ AreRising names.now }
{
    for at in 1..names.len() {
        if !is_before(&names[at - 1], &names[at]) {
            return false;
        }
    }
    true
}

/// Whether each text can be a name.
fn are_all_names(names: &[Text]) -> bool
    ensures { IsTrue result ↔ All IsName names.now }
{
    names.iter().all(|name| is_name(name.as_bytes()))
}

/// Whether these can be the names or the labels of a list in an interface: each is one, they stand in strictly rising
/// byte order, and their count has four bytes.
pub fn are_names(names: &[Text]) -> bool
    ensures { IsTrue result ↔ AreNames names.now }
{
    names.len() <= u32::MAX as usize && are_rising(names) && are_all_names(names)
}
