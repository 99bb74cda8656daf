//! The laws of reading nodes, as calls that do nothing.
ghost use Rattle.interface_reading.specs.Laws.{ReadsByTags, ReadsOpenNodes};

/// A node is read behind its tag without a bound on how many are open.
#[tactic(auto, using(crate::proofs::Bounds::any_tagged))]
pub fn reads_by_tags()
    ensures { ReadsByTags }
{}

/// How reading goes on where a part is awaited in an open node: a node is opened behind its tag, or a back reference is
/// followed; and where nothing more is awaited: the node is whole, if it stands nowhere yet.
#[tactic(auto, using(crate::proofs::Moves::open_nodes))]
pub fn open_nodes_are_read()
    ensures { ReadsOpenNodes }
{}
