//! The laws of nodes, as calls that do nothing, each for every format.
ghost use Rattle.std.specs.Prelude.{◌≡◌, true, ◌↔◌};
ghost use Rattle.node_bytes.specs.Examples.{InterfacesAreSo};
ghost use Rattle.node_bytes.specs.Nodes.{Node, same_node};
ghost use Rattle.node_bytes.specs.Laws.{SpelledIsRead, ReadIsSpelled, OneSpelling, NoFrontIsWhole, FewNodes, FieldsHaveShapes};

/// Nodes are one exactly where their tags, pieces and parts are.
pub fn nodes_are_told()
    ensures { (x y : Node) → (same_node x y ≡ true) ↔ (x ≡ y) }
{}

/// A node is read again as what it is spelled, whatever follows it.
pub fn spelled_is_read()
    ensures { SpelledIsRead }
{}

/// Bytes that are read as a node begin with its spelling, and it is a node of the format. So a node that is written out
/// twice, or a back reference to none that is whole, is in no spelling, and a node has one.
pub fn read_is_spelled()
    ensures spelled { ReadIsSpelled }
    ensures one { OneSpelling }
{}

/// No proper front of a spelling is one, and no two nodes are spelled alike.
pub fn no_front_is_whole()
    ensures { NoFrontIsWhole }
{}

/// A spelling has at most as many nodes as bytes.
pub fn nodes_are_few()
    ensures { FewNodes }
{}

/// Two interfaces have the bytes that they are written out in by hand, and three texts that are nearly so are none.
pub fn interfaces_are_so()
    ensures { InterfacesAreSo }
{}

/// A byte, a number, a text and a list of items have their shapes, whatever stands behind them.
pub fn fields_have_shapes<T>()
    ensures { FieldsHaveShapes T }
{}
