//! Variables and nodes, added one after the other and taken away from the end.

ghost use Rattle.std.specs.Prelude.{◌≡◌, ℕ, ◌<◌, [], length, slice_get, take, Some, IfOk, OnErr};
ghost use Rattle.type_nodes.specs.Nodes.{Store, Has, IsNode, AreMade, type_at, types_at, with_birth, with_node};
ghost use Rattle.type_nodes.specs.Facts.{facts_of, facts_all};

use crate::both::push_both;
use crate::facts::Facts;
use crate::node::{Birth, Node};
use cm_base::{List, NoMemory};
use semantic_objects::TyId;
use std::alloc::Global;
use std::marker::Model;

/// Variables and nodes.
#[derive(Drop)]
pub struct TypeNodes {
    births: Vec<Birth>,
    nodes: Vec<Node>,
    facts: Vec<Facts>,
}

impl Model for TypeNodes {
    ghost use Rattle.type_nodes.specs.Nodes.{Store};
    ghost use Rattle.type_nodes.specs.Facts.{IsStore};

    ghost Value = { Store };

    ghost view = { λ s. record { births = s.births.items; nodes = s.nodes.items } };

    ghost invariant = { λ s. IsStore (record { births = s.births.items; nodes = s.nodes.items }) s.facts.items };
}

impl TypeNodes {
    /// No variable and no node.
    pub fn new(alloc: Global) -> TypeNodes
        ensures { result ≡ record { births = []; nodes = [] } }
    {
        TypeNodes {
            births: Vec::new(alloc),
            nodes: Vec::new(alloc),
            facts: Vec::new(alloc),
        }
    }

    /// Each node's parts were made before it, and its type is its symbol over theirs.
    pub fn is_made(&self)
        ensures { AreMade self.now }
    {
        let _ = &self.facts;
    }

    /// How many variables there are.
    pub fn variables(&self) -> usize
        ensures { result ≡ length self.now.births }
    {
        self.births.len()
    }

    /// How many nodes there are.
    pub fn nodes(&self) -> usize
        ensures { result ≡ length self.now.nodes }
    {
        self.nodes.len()
    }

    /// One variable more. Its number is that of the variables before it.
    pub fn add_variable(&mut self, birth: Birth) -> Result<TyId, NoMemory>
        ensures id { IfOk result (λ id. id ≡ TyId.Variable (length self.old.births)) }
        ensures added { IfOk result (λ id. self.new ≡ with_birth birth self.old) }
        ensures refused { OnErr result (self.new ≡ self.old) }
    {
        let at = self.births.len();
        self.births.push(birth)?;
        Ok(TyId::Variable(at))
    }

    /// How a variable was made.
    pub fn birth(&self, variable: usize) -> Birth
        requires { variable < length self.now.births }
        ensures { slice_get self.now.births variable ≡ Some result }
    {
        self.births[variable]
    }

    /// A node: its symbol and its parts.
    pub fn node(&self, at: usize) -> &Node
        requires { at < length self.now.nodes }
        ensures { slice_get self.now.nodes at ≡ Some result.now }
    {
        &self.nodes[at]
    }

    /// What is known of a node's type.
    pub fn facts(&self, at: usize) -> Facts
        requires { at < length self.now.nodes }
        ensures { result ≡ facts_of self.now.births (type_at self.now (TyId.Made at)) }
    {
        self.facts[at]
    }

    /// What is known of the type at an id.
    fn facts_at(&self, id: TyId) -> Facts
        requires { Has self.now id }
        ensures { result ≡ facts_of self.now.births (type_at self.now id) }
    {
        match id {
            TyId::Variable(at) => Facts::of_variable(self.birth(at)),
            TyId::Made(at) => self.facts(at),
        }
    }

    /// What is known of the types at some ids.
    fn facts_of_parts(&self, parts: &List<TyId>) -> Facts
        requires { (i : ℕ) (a : TyId) → slice_get parts.now i ≡ Some a → Has self.now a }
        ensures { result ≡ facts_all self.now.births (types_at self.now parts.now) }
    {
        let mut facts = Facts::of_nothing();
        for part in parts.as_slice() {
            facts = facts.joined(self.facts_at(*part));
        }
        facts
    }

    /// One node more. Its number is that of the nodes before it.
    pub fn add_node(&mut self, node: Node) -> Result<TyId, NoMemory>
        requires { IsNode self.old node }
        ensures id { IfOk result (λ id. id ≡ TyId.Made (length self.old.nodes)) }
        ensures added { IfOk result (λ id. self.new ≡ with_node node self.old) }
        ensures refused { OnErr result (self.new ≡ self.old) }
    {
        let at = self.nodes.len();
        let facts = self.facts_of_parts(&node.parts).over(&node.symbol);
        push_both(&mut self.facts, &mut self.nodes, facts, node)?;
        Ok(TyId::Made(at))
    }

    /// Takes variables and nodes away from the end, until so many are left.
    pub fn truncate(&mut self, variables: usize, nodes: usize)
        requires made { AreMade (record { births = take variables self.old.births; nodes = take nodes self.old.nodes }) }
        ensures { self.new ≡ record { births = take variables self.old.births; nodes = take nodes self.old.nodes } }
    {
        self.births.truncate(variables);
        self.nodes.truncate(nodes);
        self.facts.truncate(nodes);
    }
}
