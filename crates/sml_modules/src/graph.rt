//! The graph: a list of nodes that grows, and the type names of the unit that is elaborated.

ghost use Rattle.std.specs.Prelude.{◌≡◌, [], length, IfOk, OnOk, OnErr, IfSome, IfNone};
ghost use Rattle.sml_modules.specs.Items.{Item, at, item_facts};
ghost use Rattle.sml_modules.specs.Graphs.{Graph, entered, new_name_of, with_name};
ghost use Rattle.sml_modules.specs.Nodes.{node_item, IsNodeAfter};
ghost use Rattle.sml_modules.specs.Adding.{StandsAt, Adds, cut};
ghost use Rattle.sml_modules.specs.Nodes.{kind_of};

use crate::node::{Kind, Node};
use cm_base::{List, NoMemory, Text};
use env_parts::Facts;
use semantic_objects::{Owner, TyName};
use std::alloc::Global;
use std::marker::Model;
use std::mem;

/// Environments, signatures, functors and tops, by ids that stand for trees. A call adds nodes and changes none, so
/// each id stands for what it stood for.
#[derive(Drop)]
pub struct EnvGraph {
    pub(crate) alloc: Global,
    nodes: List<Node>,
    home: Text,
    made: List<TyName>,
}

impl Model for EnvGraph {
    ghost use Rattle.sml_modules.specs.Graphs.{Graph};
    ghost use Rattle.sml_modules.specs.Codes.{graph_code};

    ghost Value = { Graph };

    ghost coded = { graph_code };

    ghost use Rattle.sml_modules.specs.Nodes.{unfolded, AreNodes};

    ghost view = { λ g. record { items = unfolded g.nodes; home = g.home; made = g.made } };

    ghost invariant = { λ g. AreNodes g.nodes };
}

impl EnvGraph {
    /// An empty graph, in which the empty text is the unit that owns new names.
    pub fn new(alloc: Global) -> Result<EnvGraph, NoMemory>
        ensures { IfOk result (λ graph. graph ≡ record { items = []; home = []; made = [] }) }
    {
        Ok(EnvGraph {
            alloc,
            nodes: List::new(alloc),
            home: Text::from_bytes(alloc, b"")?,
            made: List::new(alloc),
        })
    }

    /// Begins a unit: type names that are made belong to it from here on, and none counts as made yet.
    pub fn enter(&mut self, home: &Text) -> Result<(), NoMemory>
        ensures ok { OnOk result (self.new ≡ entered home.now self.old) }
        ensures err { OnErr result (self.new ≡ self.old) }
    {
        let home = home.copy()?;
        self.home = home;
        self.made = List::new(self.alloc);
        Ok(())
    }

    /// The allocator of its nodes.
    pub fn alloc(&self) -> Global {
        self.alloc
    }

    /// How many names were made since the last `enter`. It takes no memory.
    pub fn made(&self) -> u64
        ensures { result ≡ length self.now.made }
    {
        self.made.len() as u64
    }

    /// The unit that the last `enter` set.
    pub fn home(&self) -> Result<Text, NoMemory>
        ensures { IfOk result (λ home. home ≡ self.now.home) }
    {
        self.home.copy()
    }

    /// A new type name of the unit: its number is how many were made before.
    pub fn new_name(&mut self, arity: u32, eq: bool) -> Result<TyName, NoMemory>
        ensures ok { IfOk result (λ name. name ≡ new_name_of self.old arity eq) }
        ensures made { IfOk result (λ name. self.new ≡ with_name name self.old) }
        ensures err { OnErr result (self.new ≡ self.old) }
    {
        let home = self.home.copy()?;
        let number = self.made.len() as u64;
        let name = TyName {
            owner: Owner::Unit(home),
            number,
            arity,
            eq,
        };
        let kept = name.copy()?;
        self.made.add(kept)?;
        Ok(name)
    }

    /// The node at a place, for a crate that walks the graph.
    pub fn node_at(&self, place: usize) -> Option<&Node>
        ensures node { IfSome result (λ node. StandsAt self.now.items place node.now) }
        ensures none { IfNone result (at self.now.items place ≡ Item.Nowhere) }
    {
        self.nodes.get(place)
    }

    /// Adds a node over earlier ones, and answers its place.
    pub fn add(&mut self, node: Node) -> Result<usize, NoMemory>
        requires { IsNodeAfter self.old.items node }
        ensures ok { IfOk result (λ place. Adds self.old self.new (node_item self.old.items node) place) }
        ensures err { OnErr result (self.new ≡ self.old) }
    {
        let place = self.nodes.len();
        self.nodes.add(node)?;
        Ok(place)
    }

    /// How many nodes there are.
    pub fn len(&self) -> usize
        ensures { result ≡ length self.now.items }
    {
        self.nodes.len()
    }

    /// Takes away all nodes but so many, and with them what their ids stood for: a call that made these takes them back.
    pub fn cut(&mut self, len: usize)
        ensures { self.new ≡ cut len self.old }
    {
        let mut nodes = mem::replace(&mut self.nodes, List::new(self.alloc)).into_vec();
        nodes.truncate(len);
        self.nodes = List::from_vec(nodes);
    }

    /// Of which kind the node at a place is.
    pub(crate) fn kind_at(&self, place: usize) -> Kind
        ensures { result ≡ kind_of (at self.now.items place) }
    {
        match self.node_at(place) {
            Some(node) => node.kind(),
            None => Kind::Nothing,
        }
    }

    /// The facts kept at a place, and those of no type where there are none.
    pub fn facts_at(&self, place: usize) -> Facts
        ensures { result ≡ item_facts (at self.now.items place) }
    {
        match self.node_at(place) {
            Some(node) => node.facts(),
            None => Facts::none(),
        }
    }
}
