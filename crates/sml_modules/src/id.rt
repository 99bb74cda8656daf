//! Ids of a graph. An id stands for a tree, which no call changes. Its place is for crates that walk whole graphs.

/// An environment of a graph.
#[derive(Clone, Copy, Debug, PartialEq, Eq)]
pub struct EnvId {
    pub place: usize,
}

/// A signature of a graph.
#[derive(Clone, Copy, Debug, PartialEq, Eq)]
pub struct SigId {
    pub place: usize,
}

/// A functor of a graph, or a signature of functors.
#[derive(Clone, Copy, Debug, PartialEq, Eq)]
pub struct FunId {
    pub place: usize,
}

/// What stands at the top of a program, in a graph.
#[derive(Clone, Copy, Debug, PartialEq, Eq)]
pub struct TopId {
    pub place: usize,
}
