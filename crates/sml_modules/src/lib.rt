//! Environments as a graph: an id stands for an environment, a signature, a functor or a top, as a tree. Contracts
//! speak of the tree that an id stands for, so how parts are shared can't be seen.
#![tactic(auto)]

mod envs;
mod graph;
mod id;
mod node;
mod parts;
mod reading;
mod tops;

pub use env_parts::Facts;
pub use graph::EnvGraph;
pub use id::{EnvId, FunId, SigId, TopId};
pub use node::{EnvNode, FunNode, KeptType, KeptValue, Kind, Node, SigNode};
pub use parts::{FunParts, NamedEnv, NamedType, NamedValue, SigParts};
pub use reading::copy_function;
