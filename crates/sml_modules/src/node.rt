//! The nodes of a graph. Each names its parts by the places of earlier nodes. They are public for crates that walk
//! whole graphs.

ghost use Rattle.std.specs.Prelude.{◌≡◌};
ghost use Rattle.sml_modules.specs.Nodes.{node_kind, kept_facts};

use cm_base::List;
use env_parts::{EnvTables, Facts, TopTables};
use semantic_objects::{TyName, TypeStr, ValueEntry};

/// A type structure with its facts.
#[derive(Drop)]
pub struct KeptType {
    pub entry: TypeStr,
    pub facts: Facts,
}

/// A value with its facts.
#[derive(Drop)]
pub struct KeptValue {
    pub entry: ValueEntry,
    pub facts: Facts,
}

/// An environment with its facts.
#[derive(Drop)]
pub struct EnvNode {
    pub tables: EnvTables,
    pub facts: Facts,
}

/// A signature.
#[derive(Drop)]
pub struct SigNode {
    pub bound: List<TyName>,
    pub env: usize,
}

/// A functor or a signature of functors.
#[derive(Drop)]
pub struct FunNode {
    pub bound: List<TyName>,
    pub param: usize,
    pub further: List<TyName>,
    pub result: usize,
}

/// A node.
#[derive(Drop)]
pub enum Node {
    TypeStr(KeptType),
    Value(KeptValue),
    Env(EnvNode),
    Signature(SigNode),
    Functor(FunNode),
    Top(TopTables),
}

/// Of which kind a node is, or that there is none.
#[derive(Clone, Copy)]
pub enum Kind {
    Nothing,
    TypeStr,
    Value,
    Env,
    Signature,
    Functor,
    Top,
}

impl Node {
    /// Of which kind the node is.
    pub fn kind(&self) -> Kind
        ensures { result ≡ node_kind self.now }
    {
        match self {
            Node::TypeStr(_) => Kind::TypeStr,
            Node::Value(_) => Kind::Value,
            Node::Env(_) => Kind::Env,
            Node::Signature(_) => Kind::Signature,
            Node::Functor(_) => Kind::Functor,
            Node::Top(_) => Kind::Top,
        }
    }

    /// The facts kept with a node, and those of no type where none are kept.
    pub fn facts(&self) -> Facts
        ensures { result ≡ kept_facts self.now }
    {
        match self {
            Node::TypeStr(kept) => kept.facts,
            Node::Value(kept) => kept.facts,
            Node::Env(kept) => kept.facts,
            Node::Signature(_) => Facts::none(),
            Node::Functor(_) => Facts::none(),
            Node::Top(_) => Facts::none(),
        }
    }
}
