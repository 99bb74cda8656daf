//! Variables and nodes with what was put in for variables.

ghost use Rattle.std.specs.Prelude.{◌≡◌, ◌<◌, ◌≤◌, ◌-◌, [], length, drop, slice_get, true, Some, OnOk, IfOk, IfSome, OnErr};
ghost use Rattle.type_nodes.specs.Nodes.{IsNode};
ghost use Rattle.type_nodes.specs.Facts.{facts_of};
ghost use Rattle.unification.specs.Instances.{with_variable};
ghost use Rattle.type_nodes.specs.Tables.{Has, store_of, type_of, state, whole, LinkOf, LinkedTo, IsEnd, with_variable_of, with_node_of, with_entry, cut, IsFrontOf, bound_in, marked_state};
ghost use Rattle.type_nodes.specs.Stamps.{Weighs, Holds, AreAbove};
ghost use Rattle.type_nodes.specs.Keeping.{MayStand, MayMark, IsKept, IsHistory, last_variable, links_without, marks_without};

use crate::both::push_both;
use crate::entry::Entry;
use crate::facts::Facts;
use crate::kept::{keep_at, kept_at};
use crate::mark::Mark;
use crate::node::{Birth, Node};
use crate::nodes::TypeNodes;
use crate::stamp::{Stamp, Weight, are_above_since};
use crate::way::{Way, next_era};
use cm_base::NoMemory;
use semantic_objects::TyId;
use std::alloc::Global;
use std::marker::Model;
use std::snapshot::Snapshot;

/// A table of types.
#[derive(Drop)]
pub struct TypeBindings {
    types: TypeNodes,
    links: Vec<Option<TyId>>,
    marks: Vec<bool>,
    trail: Vec<Entry>,
    ways: Vec<Option<Way>>,
    stamps: Vec<Option<Stamp>>,
    era: usize,
    cuts: usize,
}

impl Model for TypeBindings {
    ghost use Rattle.type_nodes.specs.Tables.{Table};
    ghost use Rattle.type_nodes.specs.Ways.{IsShortened};

    ghost Value = { Table };

    ghost view = { λ t. record { births = t.types.births; nodes = t.types.nodes; trail = t.trail.items } };

    ghost invariant = { λ t. IsShortened (record { births = t.types.births; nodes = t.types.nodes; trail = t.trail.items })
        t.links.items t.marks.items t.ways.items t.stamps.items t.era t.cuts };
}

/// Takes an entry back from the links and the marks.
fn take_back(last: Entry, links: &mut Vec<Option<TyId>>, marks: &mut Vec<bool>)
    requires links { last_variable last < length links.old.items }
    requires marks { last_variable last < length marks.old.items }
    ensures links { links.new.items ≡ links_without last links.old.items }
    ensures marks { marks.new.items ≡ marks_without last marks.old.items }
{
    match last {
        Entry::Bound(variable, _) => links[variable] = None,
        Entry::Marked(variable) => marks[variable] = false,
    }
}

impl TypeBindings {
    /// An empty table.
    pub fn new(alloc: Global) -> TypeBindings
        ensures { result ≡ record { births = []; nodes = []; trail = [] } }
    {
        TypeBindings {
            types: TypeNodes::new(alloc),
            links: Vec::new(alloc),
            marks: Vec::new(alloc),
            trail: Vec::new(alloc),
            ways: Vec::new(alloc),
            stamps: Vec::new(alloc),
            era: 0,
            cuts: 0,
        }
    }

    /// What holds of every table.
    pub fn is_kept(&self)
        ensures kept { IsKept self.now }
        ensures history { IsHistory self.now }
    {
        let _ = &self.links;
    }

    /// How many variables there are.
    pub fn variables(&self) -> usize
        ensures { result ≡ length self.now.births }
    {
        self.types.variables()
    }

    /// How many nodes there are.
    pub fn nodes(&self) -> usize
        ensures { result ≡ length self.now.nodes }
    {
        self.types.nodes()
    }

    /// How many entries the trail has.
    pub fn entries(&self) -> usize
        ensures { result ≡ length self.now.trail }
    {
        self.trail.len()
    }

    /// An entry of the trail: what happened to a variable.
    pub fn entry(&self, at: usize) -> Entry
        requires { at < length self.now.trail }
        ensures { slice_get self.now.trail at ≡ Some result }
    {
        self.trail[at]
    }

    /// How a variable was made.
    pub fn birth(&self, variable: usize) -> Birth
        requires { variable < length self.now.births }
        ensures { slice_get self.now.births variable ≡ Some result }
    {
        self.types.birth(variable)
    }

    /// A node: its symbol and its parts.
    pub fn node(&self, at: usize) -> &Node
        requires { at < length self.now.nodes }
        ensures { slice_get self.now.nodes at ≡ Some result.now }
    {
        self.types.node(at)
    }

    /// What is known of a node's type.
    pub fn facts(&self, at: usize) -> Facts
        requires { at < length self.now.nodes }
        ensures { result ≡ facts_of self.now.births (type_of self.now (TyId.Made at)) }
    {
        self.types.facts(at)
    }

    /// A new variable.
    pub fn add_variable(&mut self, birth: Birth) -> Result<TyId, NoMemory>
        ensures id { IfOk result (λ id. id ≡ TyId.Variable (length self.old.births)) }
        ensures added { IfOk result (λ id. self.new ≡ with_variable_of birth self.old) }
        ensures state { IfOk result (λ id. state self.new ≡ with_variable birth.rigid birth.marked (state self.old)) }
        ensures refused { OnErr result (self.new ≡ self.old) }
    {
        let at = self.links.len();
        push_both(&mut self.links, &mut self.marks, None, birth.marked)?;
        match self.types.add_variable(birth) {
            Ok(id) => Ok(id),
            Err(NoMemory) => {
                self.links.truncate(at);
                self.marks.truncate(at);
                Err(NoMemory)
            }
        }
    }

    /// A new node.
    pub fn add_node(&mut self, node: Node) -> Result<TyId, NoMemory>
        requires { IsNode (store_of self.old) node }
        ensures id { IfOk result (λ id. id ≡ TyId.Made (length self.old.nodes)) }
        ensures added { IfOk result (λ id. self.new ≡ with_node_of node self.old) }
        ensures state { IfOk result (λ id. state self.new ≡ state self.old) }
        ensures refused { OnErr result (self.new ≡ self.old) }
    {
        Ok(self.types.add_node(node)?)
    }

    /// The way that is known from a variable, if nothing was undone since it was found.
    fn way(&self, variable: usize) -> Option<TyId>
        ensures { IfSome result (LinkedTo self.now variable) }
    {
        match kept_at(&self.ways, variable) {
            Some(way) => {
                if way.era == self.era && self.era < usize::MAX {
                    Some(way.to)
                } else {
                    None
                }
            }
            None => None,
        }
    }

    /// What a variable got.
    fn got(&self, variable: usize) -> Option<TyId>
        requires { variable < length self.now.births }
        ensures { LinkOf self.now variable result }
    {
        self.links[variable]
    }

    /// What a variable comes to next, if anything stands for it.
    pub fn link(&self, variable: usize) -> Option<TyId>
        requires { variable < length self.now.births }
        ensures { LinkOf self.now variable result }
    {
        match self.way(variable) {
            Some(to) => Some(to),
            None => self.got(variable),
        }
    }

    /// Keeps a way from a variable.
    fn keep_way(&mut self, variable: usize, to: TyId)
        requires { LinkedTo self.old variable to }
        ensures { self.new ≡ self.old }
    {
        let era = self.era;
        keep_at(&mut self.ways, variable, Way { to, era });
    }

    /// What a variable comes to in two steps, if there are two. That is one step from now on.
    fn skip(&mut self, variable: usize, to: TyId) -> TyId
        requires { LinkedTo self.old variable to }
        ensures linked { LinkedTo self.old variable result }
        ensures same { self.new ≡ self.old }
    {
        match to {
            TyId::Variable(next) => match self.link(next) {
                Some(further) => {
                    self.keep_way(variable, further);
                    further
                }
                None => to,
            },
            TyId::Made(_) => to,
        }
    }

    /// The same as `head`, and the way there is half as long from now on, until something is undone.
    pub fn shorten(&mut self, id: TyId) -> TyId
        requires { Has self.old id }
        ensures has { Has self.old result }
        ensures whole { whole self.old result ≡ whole self.old id }
        ensures end { IsEnd self.old result }
        ensures same { self.new ≡ self.old }
    {
        let mut at = id;
        while let TyId::Variable(variable) = at {
            match self.link(variable) {
                Some(to) => at = self.skip(variable, to),
                None => return at,
            }
        }
        at
    }

    /// What was counted of a node's type, if no entry was taken back since.
    fn stamp(&self, node: usize) -> Option<Stamp>
        ensures { IfSome result (Holds self.now node) }
    {
        match kept_at(&self.stamps, node) {
            Some(stamp) => {
                if stamp.cuts == self.cuts && self.cuts < usize::MAX {
                    Some(stamp)
                } else {
                    None
                }
            }
            None => None,
        }
    }

    /// The size of what a node stands for, where that was kept and nothing was put in since for a variable that may stand
    /// in it. It looks at no more entries of the trail than the type has nodes.
    pub fn weight(&self, node: usize) -> Option<Weight>
        ensures { IfSome result (Weighs self.now node) }
    {
        match self.stamp(node) {
            Some(stamp) => {
                let weight = stamp.weight;
                if self.is_steady(stamp.entries, weight) {
                    Some(weight)
                } else {
                    None
                }
            }
            None => None,
        }
    }

    /// Whether nothing was put in since an entry for a variable that may stand in a type of this size.
    fn is_steady(&self, entries: usize, weight: Weight) -> bool
        ensures { result ≡ true → AreAbove weight.above (drop entries self.now.trail) }
    {
        are_above_since(
            self.trail.as_slice(),
            entries,
            weight.above,
            weight.size as usize,
        )
    }

    /// Keeps the size of what a node stands for, if there is memory for it.
    pub fn keep_weight(&mut self, node: usize, weight: Weight)
        requires has { node < length self.old.nodes }
        requires weighs { Weighs self.old node weight }
        ensures { self.new ≡ self.old }
    {
        let cuts = self.cuts;
        let entries = self.trail.len();
        let stamp = Stamp {
            weight,
            entries,
            cuts,
        };
        keep_at(&mut self.stamps, node, stamp);
    }

    /// Whether a variable is an equality variable.
    pub fn is_marked(&self, variable: usize) -> bool
        requires { variable < length self.now.births }
        ensures { result ≡ (state self.now).marks variable }
    {
        self.marks[variable]
    }

    /// The variable that nothing stands for, or the node, that an id comes to.
    pub fn head(&self, id: TyId) -> TyId
        requires { Has self.now id }
        ensures has { Has self.now result }
        ensures whole { whole self.now result ≡ whole self.now id }
        ensures end { IsEnd self.now result }
    {
        let mut at = id;
        while let TyId::Variable(variable) = at {
            match self.link(variable) {
                Some(to) => at = to,
                None => return at,
            }
        }
        at
    }

    /// Puts a type in for a variable.
    pub fn bind(&mut self, variable: usize, to: TyId) -> Result<(), NoMemory>
        requires { MayStand self.old variable to }
        ensures added { OnOk result (self.new ≡ with_entry (Entry.Bound variable to) self.old) }
        ensures state { OnOk result (state self.new ≡ bound_in variable (whole self.old to) (state self.old)) }
        ensures refused { OnErr result (self.new ≡ self.old) }
    {
        self.trail.push(Entry::Bound(variable, to))?;
        self.links[variable] = Some(to);
        Ok(())
    }

    /// Marks a variable as an equality variable.
    pub fn set_mark(&mut self, variable: usize) -> Result<(), NoMemory>
        requires { MayMark self.old variable }
        ensures added { OnOk result (self.new ≡ with_entry (Entry.Marked variable) self.old) }
        ensures state { OnOk result (state self.new ≡ marked_state variable (state self.old)) }
        ensures refused { OnErr result (self.new ≡ self.old) }
    {
        self.trail.push(Entry::Marked(variable))?;
        self.marks[variable] = true;
        Ok(())
    }

    /// Takes the last entry back.
    fn pop(&mut self)
        ensures { self.new ≡ cut (length self.old.trail - 1) self.old }
    {
        if let Some(last) = self.trail.pop() {
            take_back(last, &mut self.links, &mut self.marks);
            let era = next_era(self.era);
            let cuts = next_era(self.cuts);
            self.era = era;
            self.cuts = cuts;
        }
    }

    /// Takes entries back until so many are left.
    pub fn undo_to(&mut self, entries: usize)
        requires { entries ≤ length self.old.trail }
        ensures { self.new ≡ cut entries self.old }
    {
        while self.entries() > entries {
            self.pop();
        }
    }

    /// Remembers the table as it stands.
    pub fn mark(&self) -> Mark
        ensures { result ≡ self.now }
    {
        self.is_kept();
        Mark {
            variables: self.variables(),
            nodes: self.nodes(),
            entries: self.entries(),
            past: Snapshot::of(self),
        }
    }

    /// Makes the table again what a mark remembers, variables and nodes included.
    pub fn undo(&mut self, to: &Mark)
        requires { IsFrontOf to.now self.old }
        ensures { self.new ≡ to.now }
    {
        let variables = to.variables;
        self.undo_to(to.entries);
        self.types.truncate(variables, to.nodes);
        self.links.truncate(variables);
        self.marks.truncate(variables);
        self.stamps.truncate(to.nodes);
        self.era = next_era(self.era);
    }
}
